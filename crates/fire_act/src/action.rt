// The actions, each over the side of its rule: links first, then registers.
ghost use Rattle.scope.specs.Table.{written};
ghost use Rattle.scope.specs.Edits.{writes};
ghost use Rattle.scope.specs.Rules.{action_at, propagated, rotated, rotated_twice, rotated_links, rotated_heights};
ghost use Rattle.scope.specs.Rules.{twice_top, twice_sons, twice_copied, twice_heights};
ghost use Rattle.scope.specs.declared.rule.Kind.TheVariants.{Propagate, Lean, Double};
ghost use Rattle.fire_aim.specs.Aimed.{NodesWithin};
ghost use Rattle.fire_act.specs.Wrote.{InNodes, Kept, HeightsLow};
ghost use Rattle.spelling.specs.Ready.{Sized};

use crate::put::{put_height, put_son, put_top};
use scope::{Kind, Nodes, Rule, Side};

// v's near register takes u's local height.
pub fn propagate(t: &mut [u32], c: usize, n: Nodes, near: Side)
    requires { InNodes t.old c n × HeightsLow Propagate near n }
    ensures { Kept c (written t.old (writes (propagated near n))) t.new }
{
    put_height(
        t,
        c,
        n.v,
        near,
        fire_guards::localh(fire_guards::seen(n.su, near)) as u32,
    );
}

// u takes v's link, v becomes u's far son, and u's old far son v's near one.
pub fn rotate_links(t: &mut [u32], c: usize, n: Nodes, near: Side)
    requires { InNodes t.old c n }
    ensures { Kept c (written t.old (writes (rotated_links near n))) t.new }
{
    let link = n.link;
    let far = near.other();
    put_top(t, c, link, n.u);
    put_son(t, c, n.u, far, n.v as u32);
    put_son(t, c, n.v, near, words::son(n.su, far));
}

// v takes u's far register as its near one, and u v's new local height as its far one.
pub fn rotate_heights(t: &mut [u32], c: usize, n: Nodes, near: Side)
    requires { InNodes t.old c n × HeightsLow Lean near n }
    ensures { Kept c (written t.old (writes (rotated_heights near n))) t.new }
{
    let far = near.other();
    let v = fire_guards::seen(n.sv, near);
    let u = fire_guards::seen(n.su, near);
    put_height(t, c, n.v, near, u.far);
    put_height(t, c, n.u, far, fire_guards::over(u.far, v.far) as u32);
}

pub fn rotate(t: &mut [u32], c: usize, n: Nodes, near: Side)
    requires { InNodes t.old c n × HeightsLow Lean near n }
    ensures { Kept c (written t.old (writes (rotated near n))) t.new }
{
    rotate_links(t, c, n, near);
    rotate_heights(t, c, n, near);
}

// w takes v's link, with u near and v far.
pub fn twice_top(t: &mut [u32], c: usize, n: Nodes, near: Side)
    requires { InNodes t.old c n }
    ensures { Kept c (written t.old (writes (twice_top near n))) t.new }
{
    let link = n.link;
    put_top(t, c, link, n.w);
    put_son(t, c, n.w, near, n.u as u32);
    put_son(t, c, n.w, near.other(), n.v as u32);
}

// w's old sons go to u's far side and v's near side.
pub fn twice_sons(t: &mut [u32], c: usize, n: Nodes, near: Side)
    requires { InNodes t.old c n }
    ensures { Kept c (written t.old (writes (twice_sons near n))) t.new }
{
    let far = near.other();
    put_son(t, c, n.u, far, words::son(n.sw, near));
    put_son(t, c, n.v, near, words::son(n.sw, far));
}

// Their registers go with them.
pub fn twice_copied(t: &mut [u32], c: usize, n: Nodes, near: Side)
    requires { InNodes t.old c n }
    ensures { Kept c (written t.old (writes (twice_copied near n))) t.new }
{
    let w = fire_guards::seen(n.sw, near);
    put_height(t, c, n.u, near.other(), w.near);
    put_height(t, c, n.v, near, w.far);
}

// w's registers take the new local heights of u and v.
pub fn twice_heights(t: &mut [u32], c: usize, n: Nodes, near: Side)
    requires { InNodes t.old c n × HeightsLow Double near n }
    ensures { Kept c (written t.old (writes (twice_heights near n))) t.new }
{
    let v = fire_guards::seen(n.sv, near);
    let u = fire_guards::seen(n.su, near);
    let w = fire_guards::seen(n.sw, near);
    put_height(t, c, n.w, near, fire_guards::over(u.near, w.near) as u32);
    put_height(
        t,
        c,
        n.w,
        near.other(),
        fire_guards::over(w.far, v.far) as u32,
    );
}

pub fn rotate_twice(t: &mut [u32], c: usize, n: Nodes, near: Side)
    requires { InNodes t.old c n × HeightsLow Double near n }
    ensures { Kept c (written t.old (writes (rotated_twice near n))) t.new }
{
    twice_top(t, c, n, near);
    twice_sons(t, c, n, near);
    twice_copied(t, c, n, near);
    twice_heights(t, c, n, near);
}

// The action of a rule at its nodes.
pub fn act(t: &mut [u32], c: usize, r: Rule, n: Nodes)
    requires { Sized t.old c × NodesWithin c r n }
    ensures { Kept c (written t.old (action_at r n)) t.new }
{
    let side = r.side;
    let kind = r.kind;
    match kind {
        Kind::Propagate => propagate(t, c, n, side),
        Kind::Lean => rotate(t, c, n, side),
        Kind::Even => rotate(t, c, n, side),
        Kind::Double => rotate_twice(t, c, n, side),
    }
}
