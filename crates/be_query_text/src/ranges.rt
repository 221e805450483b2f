//! Comparisons that are false for all values.
ghost use Rattle.std.specs.Prelude.{◌≡◌, ℤ, ◌≤ℤ◌, false, true, Some, IfNone, IfSome};
ghost use Rattle.std.specs.declared.option.Option.{Option};
ghost use Rattle.be_query.specs.declared.tree.Cmp.{Cmp as AnyCmp};
ghost use Rattle.be_volume.specs.Query.{holds_of_number};
ghost use Rattle.be_value.specs.Key.{IsValue};
ghost use Rattle.be_value.specs.Value.{kind_of};
ghost use Rattle.be_value.specs.declared.values.Value.{Value as AnyValue};
ghost use Rattle.be_query_text.specs.Ranges.{IsBetween, IsNeverTrue, is_false_between, is_false_of};
ghost use Rattle.be_query_text.specs.Ranges.{is_never_true};

use be_query::Cmp;
use be_value::Kind;

/// Returns `true` if a comparison is false for all values of the kind, given the number that its
/// literal encodes, if any. For kinds other than integers it always returns `false`.
pub fn is_never_true(op: Cmp, number: Option<i128>, kind: Kind) -> bool
    ensures value { result ≡ is_never_true op number kind }
    ensures never { result ≡ true → IsNeverTrue op number kind }
{
    let Some((least, greatest)) = range_of(kind) else {
        return false;
    };
    let Some(number) = number else {
        return true;
    };
    is_false_between(op, number, least, greatest)
}

/// Returns the lowest and the highest number of an integer kind.
fn range_of(kind: Kind) -> Option<(i128, i128)>
    ensures value { IfSome result (λ ends. (op : AnyCmp) (number : Option ℤ)
        → is_never_true op number kind ≡ is_false_of op number ends.0 ends.1) }
    ensures within { IfSome result (λ ends. (v : AnyValue) → IsValue v → kind_of v ≡ kind
        → IsBetween ends.0 ends.1 v) }
    ensures none { IfNone result ((op : AnyCmp) (number : Option ℤ)
        → is_never_true op number kind ≡ false) }
{
    match kind {
        Kind::Long => Some((i128::from(i32::MIN), i128::from(i32::MAX))),
        Kind::Llng => Some((i128::from(i64::MIN), i128::from(i64::MAX))),
        Kind::Ulng => Some((0, i128::from(u32::MAX))),
        Kind::Ullg => Some((0, i128::from(u64::MAX))),
        Kind::Cstr | Kind::Mims | Kind::Rawt => None,
    }
}

/// Returns `true` if comparing with `number` yields `false` for every number from `least` to
/// `greatest`.
fn is_false_between(op: Cmp, number: i128, least: i128, greatest: i128) -> bool
    ensures value { result ≡ is_false_between op number least greatest }
    ensures never { result ≡ true → (n : ℤ) → least ≤ℤ n → n ≤ℤ greatest
        → holds_of_number op n (Some number) ≡ false }
{
    match op {
        Cmp::Eq => {
            if number < least {
                return true;
            }
            if greatest < number {
                return true;
            }
            false
        }
        Cmp::Ne => false,
        Cmp::Lt => number <= least,
        Cmp::Le => number < least,
        Cmp::Gt => greatest <= number,
        Cmp::Ge => greatest < number,
    }
}
