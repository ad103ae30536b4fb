// Two names compared. Their bytes are looked at only where their lengths are equal.
ghost use Rattle.std.specs.Prelude.{◌≡◌};
ghost use Rattle.trees.specs.Names.{spelled};
ghost use Rattle.words.specs.Bytes.{same_bytes};
ghost use Rattle.names.specs.Compare.{before};

use tokens::names::spelling;
use words::same;

// Whether a comes before b: the shorter, or of one length the lower by bytes.
#[tactic(auto, using(crate::proofs::CompareLaws::before_shorter, crate::proofs::CompareLaws::before_longer, crate::proofs::CompareLaws::before_equal))]
fn before(a: &[u8], b: &[u8]) -> bool
    ensures { result ≡ before a.now b.now }
{
    a.len().cmp(&b.len()).then_with(|| a.cmp(&b)).is_lt()
}

// Whether the names at two ranges are the same. Of equal ranges no byte is looked at.
#[tactic(auto, using(crate::proofs::CompareLaws::same_range))]
pub fn same_name(text: &[u8], a: u64, b: u64) -> bool
    ensures { result ≡ same_bytes (spelled text.now a) (spelled text.now b) }
{
    if a == b {
        return true;
    }
    same(spelling(text, a), spelling(text, b))
}

// Whether the name at the range a comes before that at b. Of equal ranges no byte is looked at.
#[tactic(auto, using(crate::proofs::CompareLaws::before_range))]
pub fn comes_before(text: &[u8], a: u64, b: u64) -> bool
    ensures { result ≡ before (spelled text.now a) (spelled text.now b) }
{
    if a == b {
        return false;
    }
    before(spelling(text, a), spelling(text, b))
}
