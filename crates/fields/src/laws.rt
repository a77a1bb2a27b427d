//! The law of numbers in bytes, over every width. A law stands on a contract; the functions do nothing.
ghost use Rattle.fields.specs.Fields.{ReadsBack, WritesBack};

/// A number that fits is read back from where it is written, whatever stands around it.
pub fn written_is_read_back()
    ensures { ReadsBack }
{}

/// A number that is read has the bytes that it is read from.
pub fn read_is_written_back()
    ensures { WritesBack }
{}
