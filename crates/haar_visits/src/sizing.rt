//! Units of `size`.
ghost use Rattle.std.specs.Prelude.{◌≡◌};
ghost use Rattle.haar_visits.specs.Sizing.{count_of, added, counted, total};

use haar_base::Value;

// The count that a value is.
fn count_of(value: &Value) -> Option<u64>
    ensures { result ≡ count_of value.now }
{
    match value {
        Value::Done => None,
        Value::Sum(_) => None,
        Value::Product(_) => None,
        Value::Lines(_) => None,
        Value::Count(count) => Some(*count),
        Value::Bad => None,
    }
}

// Two counts together, where they fit.
fn added(sum: Option<u64>, count: Option<u64>) -> Option<u64>
    ensures { result ≡ added sum count }
{
    match sum {
        None => None,
        Some(sum) => match count {
            None => None,
            Some(count) => sum.checked_add(count),
        },
    }
}

// The value of a count.
fn counted(sum: Option<u64>) -> Value
    ensures { result ≡ counted sum }
{
    match sum {
        None => Value::Bad,
        Some(count) => Value::Count(count),
    }
}

/// The sum of what was counted on all ranks.
pub fn total(values: &[Value]) -> Value
    ensures { result ≡ total values.now }
{
    let mut sum = Some(0u64);
    for value in values {
        sum = added(sum, count_of(value));
    }
    counted(sum)
}
