// The call fire: the raw numbers tested, the firing aimed, its action written.
#![tactic(auto)]

ghost use Rattle.std.specs.Prelude.{◌≤◌};
ghost use Rattle.scope.specs.Fire.{aimed};
ghost use Rattle.scope.specs.Answers.{if_named};
ghost use Rattle.scope.specs.Calls.{Fire, Promise};
ghost use Rattle.scope.specs.Numbers.{rule_of, link_of};
ghost use Rattle.spelling.specs.Ready.{Sized};
ghost use Rattle.fire_aim.specs.Aimed.{Aimed};

use fire_act::act;
use scope::{Answer, Link, Nodes, Refusal, Rule};

// Test 3's part for the header, then the nodes.
pub fn aim_at(t: &[u32], c: usize, r: Rule, link: Link) -> Result<(Rule, Nodes), Refusal>
    requires { Sized t.now c × (link.holder ≤ c) }
    ensures { Aimed c (aimed t.now c r link) result }
{
    if gate::header_ok(c, t) {
        fire_aim::aim(t, c, r, link)
    } else {
        Err(Refusal::Damaged)
    }
}

// Test 2: the rule and the link.
pub fn plan_in(
    t: &[u32],
    c: usize,
    rule: u32,
    holder: u32,
    side: u32,
) -> Result<(Rule, Nodes), Refusal>
    requires { Sized t.now c }
    ensures { Aimed c (if_named (rule_of rule) (λ r. if_named (link_of c holder side) (λ l. aimed t.now c r l))) result }
{
    let r = Rule::try_from(rule)?;
    let link = Link::of(c, holder, side)?;
    aim_at(t, c, r, link)
}

// fire: a rule at a link.
pub fn fire(t: &mut [u32], rule: u32, holder: u32, side: u32) -> Answer
    ensures { Promise (Fire rule holder side) t.old result t.new }
{
    match gate::capacity(t.len()) {
        Err(why) => gate::refuse(why),
        Ok(s) => {
            let c = s.count;
            match plan_in(t, c, rule, holder, side) {
                Err(why) => gate::refuse(why),
                Ok((r, n)) => {
                    let change = words::change(t);
                    act(t, c, r, n);
                    gate::accept(u64::from(change), 0, 0, 0)
                }
            }
        }
    }
}
