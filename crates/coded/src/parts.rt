// The answers of many parts of some bytes, each in its slot: lines or clause sequences, by what answers a part.
ghost use Rattle.std.specs.Prelude.{◌≡◌, ℕ, List, ◌-◌, ◌≤◌, min, length, take, drop, replicate};
ghost use Rattle.coded.specs.Lines.{end_of, answers_from};

// What answers a part with so many numbers.
pub trait AnswerPart<const N: usize> {
    ghost answers: { Self → List ℕ → List ℕ };

    fn answer(&mut self, part: &[u8]) -> [u64; N]
        ensures value { result ≡ answers self.old part.now }
        ensures stays { answers self.new ≡ answers self.old };
}

// Where a part ends that starts at a place: no earlier, and not behind the bytes.
pub fn part_end(size: usize, at: usize, end: usize) -> usize
    requires { at ≤ size }
    ensures { (result ≡ end_of size at end) × (at ≤ result) × (result ≤ size) }
{
    end.min(size).max(at)
}

// How many parts were answered, each in its slot; a slot with no part is zeroed. A part ends at its end number, and starts where the one before has
// ended.
pub fn answer_parts<const N: usize, A: AnswerPart<N>>(
    by: &mut A,
    bytes: &[u8],
    ends: &[usize],
    answers: &mut [[u64; N]],
) -> usize
    ensures count { result ≡ min (length ends.now) (length answers.old) }
    ensures each { answers.new
        ≡ answers_from (λ at stop. A.answers by.old (take (stop - at) (drop at bytes.now))) (replicate N 0) (length bytes.now) (length answers.old) 0 ends.now }
{
    // of its own: an array made inside the loop has no proof yet
    let zeros = [0; N];
    let mut left = ends.iter();
    let mut at = 0;
    for slot in answers.iter_mut() {
        match left.next() {
            Some(end) => {
                let stop = part_end(bytes.len(), at, *end);
                *slot = by.answer(&bytes[at..stop]);
                at = stop;
            }
            None => *slot = zeros,
        }
    }
    ends.len().min(answers.len())
}
