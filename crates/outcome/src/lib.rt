// An outcome is nothing, one thing, or several; and what outcomes come to when they are joined.
#![tactic(auto)]

ghost use Rattle.std.specs.Prelude.{◌≡◌, ℕ, Bool, List, Decides};
ghost use Rattle.std.specs.Str.{bytes_eq};
ghost use Rattle.std.proofs.lemmas.Slice.Eq.{bytes_eq-Decides};
ghost use Rattle.outcome.specs.Pairs.{same_pair, same_pair_decides};
ghost use Rattle.outcome.specs.Joining.{joined, joined_all, by_value, valued, valued_all, OrderBracketingAndRepetitionDoNotAffectAJoin};

#[derive(Drop)]
pub enum Outcome<T> {
    Nothing,
    One(T),
    Several,
}

// Things with an equality, which looks at a value of theirs: of a reference, at what it refers to. Beside `PartialEq`, which
// knows no value: the laws of joins are told of values, so the test on values would be needed all the same.
pub trait Same {
    ghost Value: { Type 0 };

    ghost value: { Self → Value };

    ghost same: { Value → Value → Bool };

    ghost decides: { (x y : Value) → Decides (same x y) (x ≡ y) };

    fn same_as(&self, other: &Self) -> bool
        ensures { result ≡ same (value self.now) (value other.now) };
}

// A binding: a place, and a cell of the module there.
impl Same for (usize, usize) {
    ghost Value = { ℕ × ℕ };

    ghost value = { λ x. x };

    ghost same = { same_pair };

    ghost decides = { same_pair_decides };

    fn same_as(&self, other: &(usize, usize)) -> bool {
        self == other
    }
}

// A key, by its bytes.
impl<'a> Same for &'a [u8] {
    ghost Value = { List ℕ };

    ghost value = { λ x. x.now };

    ghost same = { bytes_eq };

    ghost decides = { bytes_eq-Decides };

    fn same_as(&self, other: &&'a [u8]) -> bool {
        *self == *other
    }
}

// One thing joined with an outcome.
fn join_one<T: Same + Drop>(x: T, b: Outcome<T>) -> Outcome<T>
    ensures { result ≡ joined (by_value T.value T.same) (Outcome.One x) b }
{
    match b {
        Outcome::Nothing => Outcome::One(x),
        Outcome::One(y) => {
            if x.same_as(&y) {
                Outcome::One(x)
            } else {
                Outcome::Several
            }
        }
        Outcome::Several => Outcome::Several,
    }
}

// Nothing joined with an outcome is that outcome; equal ones join to it; different ones, or several with anything, give several.
#[tactic(auto, using(crate::proofs::Joins::laws))]
pub fn join<T: Same + Drop>(a: Outcome<T>, b: Outcome<T>) -> Outcome<T>
    ensures joins { result ≡ joined (by_value T.value T.same) a b }
    ensures values { valued T.value result ≡ joined T.same (valued T.value a) (valued T.value b) }
    ensures laws { OrderBracketingAndRepetitionDoNotAffectAJoin T.same }
{
    match a {
        Outcome::Nothing => b,
        Outcome::One(x) => join_one(x, b),
        Outcome::Several => Outcome::Several,
    }
}

// A whole list joined; an empty one gives nothing.
pub fn join_all<T: Same + Drop>(outcomes: Vec<Outcome<T>>) -> Outcome<T>
    ensures values { valued T.value result ≡ joined_all T.same (valued_all T.value outcomes.items) }
    ensures laws { OrderBracketingAndRepetitionDoNotAffectAJoin T.same }
{
    outcomes.into_iter().fold(Outcome::Nothing, join)
}
