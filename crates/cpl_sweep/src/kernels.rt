//! Loops over the values of a strip. What is made of the values is the matter of an operator, by a trait that says it.

ghost use Rattle.std.specs.Prelude.{◌≡◌, ℤ, All, length};
ghost use Rattle.cpl_base.specs.Numbers.{IsValue};
ghost use Rattle.cpl_formula.specs.Tree.{choice_of};
ghost use Rattle.cpl_sweep.specs.Kernels.{IsChosen, IsJoined, IsMade, IsSpread};

/// An operator on one value.
pub(crate) trait Step {
    /// What it makes of a value.
    ghost makes: { Self → ℤ → ℤ };

    /// Makes it.
    fn step(&self, a: i64) -> i64
        requires { IsValue a }
        ensures value { result ≡ makes self.now a }
        ensures within { IsValue result };
}

/// An operator on two values.
pub(crate) trait Join {
    /// What it makes of two values.
    ghost joins: { Self → ℤ → ℤ → ℤ };

    /// Makes it.
    fn join(&self, a: i64, b: i64) -> i64
        requires a { IsValue a }
        requires b { IsValue b }
        ensures value { result ≡ joins self.now a b }
        ensures within { IsValue result };
}

/// Makes a value of each.
pub(crate) fn each<S: Step>(these: &mut [i64], by: &S)
    requires { All IsValue these.old }
    ensures { IsMade (S.makes by.now) these.old these.new }
{
    for k in 0..these.len() {
        these[k] = by.step(these[k]);
    }
}

/// Makes all of them one number.
pub(crate) fn spread(these: &mut [i64], number: i64)
    requires { IsValue number }
    ensures { IsSpread number these.new }
{
    for k in 0..these.len() {
        these[k] = number;
    }
}

/// Makes a value of each and the other one in its place.
pub(crate) fn pairs<J: Join>(these: &mut [i64], others: &[i64], by: &J)
    requires count { length others.now ≡ length these.old }
    requires these { All IsValue these.old }
    requires others { All IsValue others.now }
    ensures { IsJoined (J.joins by.now) these.old others.now these.new }
{
    for k in 0..these.len() {
        these[k] = by.join(these[k], others[k]);
    }
}

/// Makes a value of each and one number.
pub(crate) fn with_number<J: Join>(these: &mut [i64], number: i64, by: &J)
    requires number { IsValue number }
    requires these { All IsValue these.old }
    ensures { IsMade (λ a. J.joins by.now a number) these.old these.new }
{
    for k in 0..these.len() {
        these[k] = by.join(these[k], number);
    }
}

/// Chooses one of two values for each: the first where it is above 0, else the second.
pub(crate) fn choose(these: &mut [i64], ones: &[i64], others: &[i64])
    requires count { length ones.now ≡ length these.old }
    requires others_count { length others.now ≡ length these.old }
    requires these { All IsValue these.old }
    requires ones { All IsValue ones.now }
    requires others { All IsValue others.now }
    ensures { IsChosen these.old ones.now others.now these.new }
{
    for k in 0..these.len() {
        these[k] = choice(these[k], ones[k], others[k]);
    }
}

/// The first of two numbers where a condition is above 0, else the second.
#[inline(always)]
fn choice(condition: i64, one: i64, other: i64) -> i64
    ensures { result ≡ choice_of condition one other }
{
    if condition > 0 { one } else { other }
}
