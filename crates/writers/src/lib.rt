// The two writers of up to four words, one for a run of words and one for a run of bytes. Every entry that writes hands them its words or its
// refusal; they alone test the base address, before anything else, and the room.
#![tactic(auto)]

ghost use Rattle.std.specs.Prelude.{◌≡◌, ℕ, ◌+◌, ◌*◌, ◌^◌, ◌≤◌, ◌<◌, List, [], ◌∷◌, min, leb, length};
ghost use Rattle.std.proofs.Common.{rules};
ghost use Rattle.std.specs.List.{flat_map};
ghost use Rattle.std.proofs.lemmas.List.Edits.{sets};
ghost use Rattle.words.specs.Answer.{said};
ghost use Rattle.words.specs.Listed.{list_of, listed};
ghost use Rattle.words.specs.Place.{on};
ghost use Rattle.writers.specs.Put.{bytes_of, based, put_of, put_bytes_of};
ghost use Rattle.writers.specs.Units.{put_units};

use words::{Place, Refusal, WordPos, Words};

// What a run holds: words, or bytes, of which four are a word.
trait Unit: Copy {
    ghost size: { ℕ };

    ghost spell: { ℕ → List Self };

    // How many are a word.
    fn size() -> usize
        ensures { (result ≡ size) × (0 < size) };

    // A word stored as number i of the run, counted in words.
    fn store(run: &mut [Self], i: usize, w: u32)
        requires { (i + 1) * size ≤ length run.old }
        ensures { run.new ≡ sets run.old (i * size) (spell w) };

    ghost spelled: { (w : ℕ) → length (spell w) ≡ size };
}

impl Unit for u32 {
    ghost size = { 1 };

    ghost spell = { λ w. w ∷ [] };

    ghost spelled = { λ w. Prim.search rules };

    fn size() -> usize {
        1
    }

    fn store(run: &mut [u32], i: usize, w: u32) {
        run[i] = w;
    }
}

impl Unit for u8 {
    ghost size = { 4 };

    ghost spell = { bytes_of };

    ghost spelled = { λ w. Prim.search rules };

    fn size() -> usize {
        4
    }

    // Low byte first.
    fn store(run: &mut [u8], i: usize, w: u32) {
        run[i * 4..i * 4 + 4].copy_from_slice(&w.to_le_bytes());
    }
}

// What is asked for at a place, or 15: both writers test the base here.
fn based(at: Place, m: Result<Words, Refusal>) -> Result<Words, Refusal>
    ensures { listed (said result) ≡ based at (listed (said m)) }
{
    if at.base.0 % 4 == 0 {
        m
    } else {
        Err(Refusal::Unaligned)
    }
}

// The words as numbers i and on of a run. They are stored from last to first with no test of their number: one that is not in the list goes to
// the last place, where the last word of the list is stored over it.
// Stays: no loop over the words, since a `for` over as many as there are takes 1.2 times as long for each move that is written.
fn store_all<T: Unit>(run: &mut [T], i: usize, n: usize, f: Words)
    requires count { n ≡ min f.count 4 }
    requires room { (i + n) * T.size ≤ length run.old }
    requires fits { i + n < 2 ^ 64 }
    ensures { run.new ≡ sets run.old (i * T.size) (flat_map T.spell (list_of f)) }
{
    if n == 0 {
        return;
    }
    let last = n - 1;
    T::store(run, i + words::least(last, 3), f.d);
    T::store(run, i + words::least(last, 2), f.c);
    T::store(run, i + words::least(last, 1), f.b);
    T::store(run, i, f.a);
}

// The words from the place on, or a refusal with the run unchanged: 15, then what is handed in, then 8. A count above four is four.
fn put_all<T: Unit>(run: &mut [T], at: Place, m: Result<Words, Refusal>) -> Result<Place, Refusal>
    ensures { (said result, run.new) ≡ put_units T.size T.spell run.old at (listed (said m)) }
{
    let f = based(at, m)?;
    let i = at.position.0;
    let n = words::least(f.count, 4);
    let room = run.len() / T::size();
    if room < i || room - i < n {
        return Err(Refusal::NoRoom);
    }
    store_all(run, i, n, f);
    Ok(Place {
        base: at.base,
        position: WordPos(i + n),
    })
}

// A run of words.
pub fn put(words: &mut [u32], at: Place, m: Result<Words, Refusal>) -> Result<Place, Refusal>
    ensures { (said result, words.new) ≡ put_of words.old at (listed (said m)) }
{
    put_all(words, at, m)
}

// A run of bytes: a word is four bytes, low byte first, the position counts words, and a tail under four bytes is no room.
pub fn put_bytes(bytes: &mut [u8], at: Place, m: Result<Words, Refusal>) -> Result<Place, Refusal>
    ensures { (said result, bytes.new) ≡ put_bytes_of bytes.old at (listed (said m)) }
{
    put_all(bytes, at, m)
}
