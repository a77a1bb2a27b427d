/// What blocks are wanted for.
#[derive(Clone, Copy)]
pub enum Access {
    Read,
    Write,
}
