ghost use Rattle.std.specs.Prelude.{◌≡◌, ◌≤◌, IsTrue, length, nat_lt};
ghost use Rattle.std.specs.List.{prefix_len};
ghost use Rattle.gr_base.specs.Rising.{RisesBy};

use gr_base::{OutOfMemory, count_below};
use std::alloc::Global;

/// Where a search among rising numbers may begin and end. The numbers fall into buckets by their upper bits, and the
/// table has the position of the first number of each bucket.
///
/// The table is a guess. It may be wrong, if the numbers have changed since, and it is empty if it has no room. So a
/// search checks what it finds, and if that is wrong it goes through all numbers.
#[derive(Drop)]
pub struct SearchHints {
    starts: Vec<u32>,
    shift: u32,
}

impl SearchHints {
    /// An empty table. It takes no memory.
    pub fn new(alloc: Global) -> SearchHints {
        SearchHints {
            starts: Vec::new(alloc),
            shift: 0,
        }
    }

    /// Makes room for about as many buckets as there are numbers.
    ///
    /// # Errors
    ///
    /// `OutOfMemory` if memory runs out.
    pub fn reserve(&mut self, count: usize) -> Result<(), OutOfMemory> {
        let wanted = count.saturating_add(1);
        self.starts
            .reserve(wanted.saturating_sub(self.starts.len()))?;
        Ok(())
    }

    /// Makes the table that of rising numbers. It takes linear time and no memory.
    pub fn fill(&mut self, numbers: &[u32]) {
        self.begin(numbers.last().copied().unwrap_or(0));
        for (at, number) in numbers.iter().enumerate() {
            self.note(*number, at);
        }
        self.end(numbers.len());
    }

    /// Begins the table of numbers of which this is the greatest: the buckets are so wide that there is room for them.
    pub fn begin(&mut self, greatest: u32) {
        self.starts.clear();
        let room = self.starts.capacity().saturating_sub(1);
        for shift in 0..32 {
            self.shift = shift;
            if ((greatest >> shift) as usize) < room {
                return;
            }
        }
    }

    /// Says where a number stands. The numbers come in rising order, and may come more than once.
    pub fn note(&mut self, number: u32, at: usize) {
        self.extend((number >> (self.shift % 32)) as usize, at);
    }

    /// Ends the table of so many numbers.
    pub fn end(&mut self, count: usize) {
        let bucket = self.starts.len();
        self.extend(bucket, count);
    }

    /// Gives the buckets up to this one that are not in the table yet a position, if there is room for them.
    fn extend(&mut self, bucket: usize, at: usize) {
        if bucket >= self.starts.capacity() {
            return;
        }
        let start = at.min(u32::MAX as usize) as u32;
        for _ in self.starts.len()..bucket + 1 {
            let _ = self.starts.push(start);
        }
    }

    /// Where the first of `count` numbers that is not below this one may stand: between the two positions that it
    /// returns. It takes constant time.
    pub fn range(&self, bound: u64, count: usize) -> (usize, usize)
        ensures start { result.0 ≤ result.1 }
        ensures end { result.1 ≤ count }
    {
        let bucket = (bound >> (self.shift % 32)) as usize;
        let end = self.start_of(bucket.saturating_add(1), count);
        (self.start_of(bucket, end), end)
    }

    /// Where a bucket begins, but at most this.
    fn start_of(&self, bucket: usize, most: usize) -> usize
        ensures { result ≤ most }
    {
        if bucket < self.starts.len() {
            most.min(self.starts[bucket] as usize)
        } else {
            most
        }
    }

    /// How many of the numbers of a rising list are below this one. It takes constant time if the table is that of the
    /// list and the buckets have few numbers, and else at most logarithmic time.
    pub fn count_below(&self, numbers: &[u32], v: u32) -> usize
        requires { RisesBy (λ n. n) numbers.now }
        ensures { result ≡ prefix_len (λ n. nat_lt n v) numbers.now }
    {
        let (start, end) = self.range(u64::from(v), numbers.len());
        let at = start + numbers[start..end].partition_point(|n| *n < v);
        if divides(numbers, at, v) {
            at
        } else {
            count_below(numbers, v)
        }
    }
}

/// Whether the numbers before a position are below this one, and those from there on are not. It looks at the two
/// beside the position, since the numbers rise.
fn divides(numbers: &[u32], at: usize, v: u32) -> bool
    requires rises { RisesBy (λ n. n) numbers.now }
    requires within { at ≤ length numbers.now }
    ensures { IsTrue result → prefix_len (λ n. nat_lt n v) numbers.now ≡ at }
{
    if at > 0 && numbers[at - 1] >= v {
        return false;
    }
    if at < numbers.len() && numbers[at] < v {
        return false;
    }
    true
}
