// Outputs before and after a call.
ghost use Rattle.std.specs.Prelude.{◌≡◌, ◌==◌};
ghost use Rattle.std.specs.List.{list_all};
ghost use Rattle.replay.specs.Agreed.{held, agreed};
ghost use Rattle.replay.specs.Counted.{without_space};
ghost use Rattle.replay.specs.Said.{says};

use records::{Ground, refused_on};
use words::same;

// Bytes that no answer leaves.
pub fn prefill(out: &mut [u8]) {
    out.fill(0xEE);
}

fn zeros(bytes: &[u8]) -> bool
    ensures { result ≡ list_all (λ b. b == 0) bytes.now }
{
    bytes.iter().all(|byte| *byte == 0)
}

// Whether the output holds the records and then zeros to its end.
pub fn holds(out: &[u8], records: &[u8]) -> bool
    ensures { result ≡ held out.now records.now }
{
    let n = records.len();
    if out.len() < n {
        return false;
    }
    if !same(&out[..n], records) {
        return false;
    }
    zeros(&out[n..])
}

// Whether that number is the answer, and the output holds the records and then zeros to its end.
pub fn same_answer(number: u64, out: &[u8], answer: u64, records: &[u8]) -> bool
    ensures { result ≡ agreed (says number out.now) answer records.now }
{
    if number != answer {
        return false;
    }
    holds(out, records)
}

// What is answered where the output is too small: 6 instead of an acceptance.
pub fn without_space(answer: u64) -> u64
    ensures { result ≡ without_space answer }
{
    if answer < 72057594037927936 {
        return refused_on(Ground::NoSpace, 0);
    }
    answer
}
