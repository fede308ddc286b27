// Slices of 16-bit numbers written: the numbers of one rule put at a place, and a stretch filled with one number. Both functions take
// every slice and every place.
#![tactic(auto)]

ghost use Rattle.std.specs.Prelude.{◌+◌, [], ◌∷◌};
ghost use Rattle.put.specs.Put.{Wrote};
ghost use Rattle.rows.specs.Fill.{Filled};

use paper::RuleRow;

// Puts the numbers of a rule from `at` on, and answers the place behind them; where they do not fit, nothing is changed.
pub fn put_rule(rules: &mut [u16], at: usize, rule: RuleRow) -> usize
    ensures { Wrote rules.old at (rule.kind ∷ rule.left ∷ rule.right ∷ rule.to ∷ []) result rules.new }
{
    let len = rules.len();
    if len < at {
        return at;
    }
    if len - at < paper::WIDTH {
        return at;
    }
    rules[at] = rule.kind;
    rules[at + 1] = rule.left;
    rules[at + 2] = rule.right;
    rules[at + 3] = rule.to;
    at + paper::WIDTH
}

// Fills the numbers from `from` on up to `to`, as far as there are any, with v.
pub fn fill(s: &mut [u16], from: usize, to: usize, v: u16)
    ensures { Filled s.old from to v s.new }
{
    let end = to.min(s.len());
    if from < end {
        s[from..end].fill(v);
    }
}
