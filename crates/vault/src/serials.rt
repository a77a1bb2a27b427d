ghost use Rattle.std.specs.Prelude.{◌≡◌};
ghost use Rattle.vault.specs.Serials.{distinct};

use packed::contains;

/// Whether no word but 0 stands twice.
#[tactic(auto, unfolding(crate::specs::Serials::distinct))]
pub fn all_distinct(words: &[u32]) -> bool
    ensures { result ≡ distinct words.now }
{
    match words {
        [] => true,
        [word, others @ ..] => { (*word == 0 || !contains(others, *word)) && all_distinct(others) }
    }
}
