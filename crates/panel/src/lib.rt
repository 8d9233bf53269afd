// The calls for C: each writes its five numbers to `out`.
#![tactic(auto)]

ghost use Rattle.std.specs.Prelude.{◌≡◌};
ghost use Rattle.scope.specs.Calls.{Start, Check, Find, Post, Amend, Drop, Rank, Total, Worth, Fire, Tidy};
ghost use Rattle.panel.specs.Five.{five_of, Gives};

use scope::Answer;

// The five numbers of an answer in the order of the C interface.
pub fn five(a: Answer) -> [u64; 5]
    ensures { result ≡ five_of a }
{
    [a.code, a.change, a.value, a.more, a.kind]
}

#[unsafe(no_mangle)]
pub extern "C" fn ftk_start(t: &mut [u32], out: &mut [u64; 5])
    ensures { Gives Start t.old out.new t.new }
{
    *out = five(index::start(t));
}

#[unsafe(no_mangle)]
pub extern "C" fn ftk_check(t: &[u32], out: &mut [u64; 5])
    ensures { Gives Check t.now out.new t.now }
{
    *out = five(index::check(t));
}

#[unsafe(no_mangle)]
pub extern "C" fn ftk_find(t: &[u32], key: u32, out: &mut [u64; 5])
    ensures { Gives (Find key) t.now out.new t.now }
{
    *out = five(index::find(t, key));
}

#[unsafe(no_mangle)]
pub extern "C" fn ftk_post(t: &mut [u32], key: u32, pieces: u32, state: u32, out: &mut [u64; 5])
    ensures { Gives (Post key pieces state) t.old out.new t.new }
{
    *out = five(index::post(t, key, pieces, state));
}

#[unsafe(no_mangle)]
pub extern "C" fn ftk_amend(t: &mut [u32], key: u32, pieces: u32, state: u32, out: &mut [u64; 5])
    ensures { Gives (Amend key pieces state) t.old out.new t.new }
{
    *out = five(index::amend(t, key, pieces, state));
}

#[unsafe(no_mangle)]
pub extern "C" fn ftk_drop(t: &mut [u32], key: u32, out: &mut [u64; 5])
    ensures { Gives (Drop key) t.old out.new t.new }
{
    *out = five(index::drop(t, key));
}

#[unsafe(no_mangle)]
pub extern "C" fn ftk_rank(t: &[u32], r: u32, out: &mut [u64; 5])
    ensures { Gives (Rank r) t.now out.new t.now }
{
    *out = five(index::rank(t, r));
}

#[unsafe(no_mangle)]
pub extern "C" fn ftk_total(t: &[u32], key: u32, out: &mut [u64; 5])
    ensures { Gives (Total key) t.now out.new t.now }
{
    *out = five(index::total(t, key));
}

#[unsafe(no_mangle)]
pub extern "C" fn ftk_worth(t: &[u32], out: &mut [u64; 5])
    ensures { Gives Worth t.now out.new t.now }
{
    *out = five(index::worth(t));
}

#[unsafe(no_mangle)]
pub extern "C" fn ftk_fire(t: &mut [u32], rule: u32, holder: u32, side: u32, out: &mut [u64; 5])
    ensures { Gives (Fire rule holder side) t.old out.new t.new }
{
    *out = five(index::fire(t, rule, holder, side));
}

#[unsafe(no_mangle)]
pub extern "C" fn ftk_tidy(t: &mut [u32], budget: u32, out: &mut [u64; 5])
    ensures { Gives (Tidy budget) t.old out.new t.new }
{
    *out = five(index::tidy(t, budget));
}
