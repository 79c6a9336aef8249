// The work buffers that calls are lent: the shortest of them, and their clearing. Assumes nothing.
#![tactic(auto)]

ghost use Rattle.std.specs.Prelude.{◌≡◌, [], ◌∷◌, map};
ghost use Rattle.theory.specs.Calls.{zeros};
ghost use Rattle.theory.proofs.Refusals.{least};

use lists::clear;

// The least of a number and others.
pub fn shortest(first: usize, others: &[usize]) -> usize
    ensures { result ≡ least first others.now }
{
    others.iter().fold(first, |least, other| least.min(*other))
}

// Sets every entry of four buffers to 0. Each number of buffers has its function, and no list of buffers is taken: the
// kit does not prove a caller that puts buffers which it was lent into one array. They are compiled into their callers,
// which would have to put up to ten buffers on the stack to call them.
#[inline(always)]
fn clear_four(a: &mut [u16], b: &mut [u16], c: &mut [u16], d: &mut [u16])
    ensures { (a.new ∷ b.new ∷ c.new ∷ d.new ∷ [])
        ≡ map zeros (a.old ∷ b.old ∷ c.old ∷ d.old ∷ []) }
{
    clear(a);
    clear(b);
    clear(c);
    clear(d);
}

// Of five.
#[inline(always)]
pub fn clear_five(a: &mut [u16], b: &mut [u16], c: &mut [u16], d: &mut [u16], e: &mut [u16])
    ensures { (a.new ∷ b.new ∷ c.new ∷ d.new ∷ e.new ∷ [])
        ≡ map zeros (a.old ∷ b.old ∷ c.old ∷ d.old ∷ e.old ∷ []) }
{
    clear(a);
    clear(b);
    clear(c);
    clear(d);
    clear(e);
}

// Of nine.
#[inline(always)]
pub fn clear_nine(
    a: &mut [u16],
    b: &mut [u16],
    c: &mut [u16],
    d: &mut [u16],
    e: &mut [u16],
    f: &mut [u16],
    g: &mut [u16],
    h: &mut [u16],
    i: &mut [u16],
)
    ensures { (a.new ∷ b.new ∷ c.new ∷ d.new ∷ e.new
        ∷ f.new ∷ g.new ∷ h.new ∷ i.new ∷ [])
        ≡ map zeros (a.old ∷ b.old ∷ c.old ∷ d.old ∷ e.old
        ∷ f.old ∷ g.old ∷ h.old ∷ i.old ∷ []) }
{
    clear_four(a, b, c, d);
    clear_five(e, f, g, h, i);
}

// Of ten.
#[inline(always)]
pub fn clear_ten(
    a: &mut [u16],
    b: &mut [u16],
    c: &mut [u16],
    d: &mut [u16],
    e: &mut [u16],
    f: &mut [u16],
    g: &mut [u16],
    h: &mut [u16],
    i: &mut [u16],
    j: &mut [u16],
)
    ensures { (a.new ∷ b.new ∷ c.new ∷ d.new ∷ e.new
        ∷ f.new ∷ g.new ∷ h.new ∷ i.new ∷ j.new ∷ [])
        ≡ map zeros (a.old ∷ b.old ∷ c.old ∷ d.old ∷ e.old
        ∷ f.old ∷ g.old ∷ h.old ∷ i.old ∷ j.old ∷ []) }
{
    clear(a);
    clear_nine(b, c, d, e, f, g, h, i, j);
}
