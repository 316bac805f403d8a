// Runs of a line or a content that no continuation begins in.
ghost use Rattle.std.specs.Prelude.{◌≡◌, ◌+◌, ◌-◌, ◌<◌, ◌≤◌, ◌&&◌, ◌++◌, length, take, drop, leb};
ghost use Rattle.std.specs.List.{list_all};
ghost use Rattle.ascii.specs.Text.{leading};
ghost use Rattle.refusal.specs.Answer.{max_length};
ghost use Rattle.source.specs.Joining.{any_cut};
ghost use Rattle.source.specs.Staying.{is_plain_c, is_plain_f, is_plain, counted, Stays};

use ascii::sets::ByteSet;

// All but `\`.
#[derive(Clone, Copy)]
pub struct PlainC;

// All but `&`.
#[derive(Clone, Copy)]
pub struct PlainF;

// All but `\` and `&`.
#[derive(Clone, Copy)]
pub struct Plain;

impl ByteSet for PlainC {
    ghost holds = { is_plain_c };

    fn has(b: u8) -> bool {
        b != b'\\'
    }
}

impl ByteSet for PlainF {
    ghost holds = { is_plain_f };

    fn has(b: u8) -> bool {
        b != b'&'
    }
}

impl ByteSet for Plain {
    ghost holds = { is_plain };

    fn has(b: u8) -> bool {
        (b != b'\\') & (b != b'&')
    }
}

// Behind a place, the end of the bytes that begin no continuation of either language.
pub fn plain_end(content: &[u8], from: usize) -> usize
    requires { from ≤ length content.now }
    ensures { Stays any_cut content.now from result }
{
    // a run is often of no byte or one, and a block would be asked in vain
    if from < content.len() {
        if !Plain::has(content[from]) {
            return from;
        }
        if from + 1 < content.len() && !Plain::has(content[from + 1]) {
            return from + 1;
        }
    }
    ascii::long_run_end::<Plain>(content, from)
}

// Whether a run goes on for sixteen bytes, by one branch for all: shorter ones are sooner kept byte by byte.
pub fn is_long<S: ByteSet>(line: &[u8], from: usize) -> bool
    requires { from ≤ length line.now }
    ensures { result ≡ (leb (from + 16) (length line.now) && list_all S.holds (take 16 (drop from line.now))) }
{
    if line.len() - from < 16 {
        return false;
    }
    let mut all = true;
    for b in &line[from..from + 16] {
        all = all & S::has(*b);
    }
    all
}

// The places of a run, from its first on. Two counters and nothing else: the compiler makes vector code of such a loop.
fn count_up(map: &mut [u16], from: usize)
    requires { from + length map.old ≤ max_length }
    ensures { map.new ≡ counted from (length map.old) }
{
    let mut i = from;
    let mut k = 0;
    while k < map.len() {
        map[k] = i as u16;
        i += 1;
        k += 1;
    }
}

// Copies a run of a few bytes into as many slots, one by one.
fn copy_bytes(run: &[u8], slots: &mut [u8])
    requires { length run.now ≡ length slots.old }
    ensures { slots.new ≡ run.now }
{
    let mut k = 0;
    while k < slots.len() {
        slots[k] = run[k];
        k += 1;
    }
}

// Copies a run from a place on in blocks of so many bytes, while a byte is left behind each: the place behind the last is returned. A `copy_from_slice` whose length is
// not known when it is compiled is a call of `memmove`, which the archive for C would need from outside.
fn copy_by<const N: usize>(run: &[u8], slots: &mut [u8], from: usize) -> usize
    requires block { (0 < N) × (N ≤ 64) }
    requires begun { (length run.now ≡ length slots.old) × (from ≤ length run.now) × (take from slots.old ++ drop from run.now ≡ run.now) }
    ensures ended { (result ≤ length run.now) × (length run.now ≤ result + N) }
    ensures bytes { take result slots.new ++ drop result run.now ≡ run.now }
{
    let mut k = from;
    while k + N < run.len() {
        slots[k..k + N].copy_from_slice(&run[k..k + N]);
        k += N;
    }
    k
}

// Copies a run of sixteen bytes and more into as many slots: the last sixteen overlap those before.
fn copy_blocks(run: &[u8], slots: &mut [u8])
    requires { (16 ≤ length run.now) × (length run.now ≡ length slots.old) }
    ensures { slots.new ≡ run.now }
{
    let n = run.len();
    let k = copy_by::<64>(run, slots, 0);
    copy_by::<16>(run, slots, k);
    slots[n - 16..n].copy_from_slice(&run[n - 16..n]);
}

// Copies a run into as many slots.
pub(crate) fn copy_run(run: &[u8], slots: &mut [u8])
    requires { length run.now ≡ length slots.old }
    ensures { slots.new ≡ run.now }
{
    if run.len() < 16 {
        copy_bytes(run, slots);
    } else {
        copy_blocks(run, slots);
    }
}

// Keeps the run of a set's bytes that starts at a place as a block: its bytes and their places go into the slots from one on. The end of the run is returned.
pub fn keep_block<S: ByteSet>(
    line: &[u8],
    from: usize,
    text: &mut [u8],
    map: &mut [u16],
    at: usize,
) -> usize
    requires room { (at ≤ from) × ((length line.now ≤ length text.old) × (length line.now ≤ length map.old)) }
    requires in_bounds { from ≤ length line.now }
    requires line_len_bound { length line.now ≤ max_length }
    ensures within { (from ≤ result) × (result ≤ length line.now) }
    ensures run { result ≡ from + leading S.holds (drop from line.now) }
    ensures text { take (at + (result - from)) text.new ≡ take at text.old ++ take (result - from) (drop from line.now) }
    ensures map { take (at + (result - from)) map.new ≡ take at map.old ++ counted from (result - from) }
{
    let end = ascii::long_run_end::<S>(line, from);
    let next = at + (end - from);
    copy_run(&line[from..end], &mut text[at..next]);
    count_up(&mut map[at..next], from);
    end
}
