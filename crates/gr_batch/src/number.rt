ghost use Rattle.std.specs.Prelude.{◌≡◌, ◌≢◌, ℕ, ◌<◌, ◌≤◌, ◌^◌, ◌++◌, List, flat_map, OnOk, IfOk, IfSome, IfNone};
ghost use Rattle.std.specs.List.{All};
ghost use Rattle.gr_batch.specs.Reading.{IsFront, HasNoFront};
ghost use Rattle.gr_batch.specs.Spelling.{groups, limit, number_bytes};

use gr_base::OutOfMemory;
use std::alloc::Global;

// Appends the shortest spelling of a number: seven bits a byte, the low ones first, each byte but the last marked.
pub(crate) fn push_number(bytes: &mut Vec<u8>, number: u64) -> Result<(), OutOfMemory>
    ensures { OnOk result (bytes.new.items ≡ bytes.old.items ++ number_bytes number) }
{
    let mut rest = number;
    while rest >= 128 {
        bytes.push((rest % 128 + 128) as u8)?;
        rest /= 128;
    }
    bytes.push(rest as u8)?;
    Ok(())
}

// The number that stands in its shortest spelling at the front, in one byte and at most so many more, and the bytes
// after it.
fn groups_at(bytes: &[u8], more: u8) -> Option<(u64, &[u8])>
    requires { more ≤ 9 }
    ensures found { IfSome result (λ x. IsFront (groups more) (λ n. n < limit more) bytes.now x.0 x.1.now) }
    ensures absent { IfNone result (HasNoFront (groups more) (λ n. n < limit more) bytes.now) }
{
    match bytes {
        [] => None,
        [first, rest @ ..] => {
            if more == 0 {
                return if *first < 2 {
                    Some((*first as u64, rest))
                } else {
                    None
                };
            }
            if *first < 128 {
                return Some((*first as u64, rest));
            }
            let (high, after) = groups_at(rest, more - 1)?;
            if high == 0 {
                return None;
            }
            Some((128 * high + (*first as u64 - 128), after))
        }
    }
}

fn number_at(bytes: &[u8]) -> Option<(u64, &[u8])>
    ensures found { IfSome result (λ x. IsFront number_bytes (λ n. n < 2 ^ 64) bytes.now x.0 x.1.now) }
    ensures absent { IfNone result (HasNoFront number_bytes (λ n. n < 2 ^ 64) bytes.now) }
{
    groups_at(bytes, 9)
}

// The numbers that all of the bytes spell, each in its shortest spelling.
pub(crate) fn numbers_in(alloc: Global, bytes: &[u8]) -> Result<Option<Vec<u64>>, OutOfMemory>
    ensures found { IfOk result (λ r. IfSome r (λ numbers. All (λ n. n < 2 ^ 64) numbers.items
        × (bytes.now ≡ flat_map number_bytes numbers.items))) }
    ensures absent { IfOk result (λ r. IfNone r ((ns : List ℕ) → All (λ n. n < 2 ^ 64) ns
        → bytes.now ≢ flat_map number_bytes ns)) }
{
    let mut numbers = Vec::new(alloc);
    let mut rest = bytes;
    while !rest.is_empty() {
        match number_at(rest) {
            None => return Ok(None),
            Some((number, after)) => {
                numbers.push(number)?;
                rest = after;
            }
        }
    }
    Ok(Some(numbers))
}
