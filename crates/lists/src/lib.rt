// Small loops over slices of 16-bit entries: an entry as an index, fill and copy, three entries at a time, the first 0,
// ranks of marked indices, and values at their keys. Every table stands at the front of a slice that the caller lends,
// which may be longer: a count beside it says how long it is. It knows nothing of meshes, takes time linear in the
// numbers that it is given, and assumes nothing.
#![tactic(auto)]

ghost use Rattle.std.specs.Prelude.{ℕ, ◌≡◌, ◌+◌, ◌*◌, ◌<◌, ◌≤◌, [], ◌∷◌, ◌++◌, length, take, drop, replicate};
ghost use Rattle.std.proofs.lemmas.List.Edits.{sets};
ghost use Rattle.theory.specs.Mesh.{at};
ghost use Rattle.theory.specs.Calls.{zeros};
ghost use Rattle.lists.specs.Places.{Least};
ghost use Rattle.lists.specs.Tables.{Tabulated};
ghost use Rattle.lists.specs.Marks.{bit_of, RanksLent, RanksOf};
ghost use Rattle.lists.specs.Keys.{KeysLent, ValuesLent, Scattered, Holds};

// The entry of `s` at index `i`, as an index.
pub fn at(s: &[u16], i: usize) -> usize
    requires { i < length s.now }
    ensures { result ≡ at s.now i }
{
    s[i] as usize
}

// Sets the first `n` entries of `s` to `value`.
pub fn fill(s: &mut [u16], n: usize, value: u16)
    requires { n ≤ length s.old }
    ensures { s.new ≡ replicate n value ++ drop n s.old }
{
    s[..n].fill(value);
}

// Sets every entry of `s` to 0.
pub fn clear(s: &mut [u16])
    ensures { s.new ≡ zeros s.old }
{
    s.fill(0);
}

// Copies the first `n` entries of `from` over those of `to`. It is a loop, as std's `copy_from_slice` is compiled to a call
// of the C library's `memmove`, and the archive for C needs `memset` alone.
pub fn copy(from: &[u16], to: &mut [u16], n: usize)
    requires n_in_bounds { n ≤ length from.now }
    requires n_in_bounds_2 { n ≤ length to.old }
    ensures { to.new ≡ take n from.now ++ drop n to.old }
{
    for i in 0..n {
        to[i] = from[i];
    }
}

// Writes three entries as those of the k-th three.
pub fn write_three(s: &mut [u16], k: usize, a: u16, b: u16, c: u16)
    requires { 3 * k + 3 ≤ length s.old }
    ensures { s.new ≡ sets s.old (3 * k) (a ∷ b ∷ c ∷ []) }
{
    s[3 * k] = a;
    s[3 * k + 1] = b;
    s[3 * k + 2] = c;
}

// The least index below `n` whose entry is 0.
pub fn first_zero(s: &[u16], n: usize) -> Option<usize>
    requires { n ≤ length s.now }
    ensures { Least (λ i. at s.now i ≡ 0) n result }
{
    s[..n].iter().position(|entry| *entry == 0)
}

// The rank of each index below `n`: how many marked ones, with an entry other than 0, stand before it. Answers how
// many are marked.
pub fn ranks(marks: &[u16], n: usize, rank: &mut [u16]) -> usize
    requires { RanksLent n marks.now rank.old }
    ensures { RanksOf n marks.now result rank.new }
{
    let mut count = 0;
    for i in 0..n {
        rank[i] = count as u16;
        count += bit(marks[i]);
    }
    count
}

// 1 for a mark, 0 for none.
fn bit(mark: u16) -> usize
    ensures { result ≡ bit_of mark }
{
    usize::from(mark != 0)
}

// Looks up the first `n` keys: `out[p]` is the entry of `table` at `keys[p]`. (Keys and tables are no struct, here and
// below: one and the same list is a table in one call and the keys of the next.)
pub fn gather(table: &[u16], keys: &[u16], n: usize, out: &mut [u16])
    requires { KeysLent n keys.now table.now out.old }
    ensures { Tabulated (λ p. at table.now (at keys.now p)) n out.new }
{
    for p in 0..n {
        out[p] = table[at(keys, p)];
    }
}

// Values that are asked for by their index.
pub trait Values: Copy {
    // Value `p`.
    ghost value: { Self → ℕ → ℕ };

    // How many may be asked for.
    ghost count: { Self → ℕ };

    fn value_at(self, p: usize) -> u16
        requires { p < count self }
        ensures { result ≡ value self p };
}

// The entries of a list.
impl Values for &[u16] {
    ghost value = { λ s. at s.now };

    ghost count = { λ s. length s.now };

    fn value_at(self, p: usize) -> u16 {
        self[p]
    }
}

// The indices themselves, within 16 bits.
#[derive(Clone, Copy)]
pub struct Indices;

impl Values for Indices {
    ghost value = { λ _ p. p };

    ghost count = { λ _. 65536 };

    fn value_at(self, p: usize) -> u16 {
        p as u16
    }
}

// Puts each of the first `n` values into `table` at its key; of several at one key the last stays.
pub fn scatter<V: Values>(keys: &[u16], values: V, n: usize, table: &mut [u16])
    requires { ValuesLent n keys.now table.old (V.count values) }
    ensures { Scattered (V.value values) n keys.now table.old
        table.new }
{
    for p in 0..n {
        table[at(keys, p)] = values.value_at(p);
    }
}

// Whether `table` holds each of the first `n` values at its key.
pub fn holds<V: Values>(keys: &[u16], values: V, n: usize, table: &[u16]) -> bool
    requires { ValuesLent n keys.now table.now (V.count values) }
    ensures { Holds (V.value values) n keys.now table.now result }
{
    for p in 0..n {
        if table[at(keys, p)] != values.value_at(p) {
            return false;
        }
    }
    true
}
