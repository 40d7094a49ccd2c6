ghost use Rattle.std.specs.Prelude.{◌≡◌};
ghost use Rattle.mm_machines.specs.Values.{applied as applied_to, choice_of, equal as equal_to, negated as negated_of, number_of, truth_of};
ghost use Rattle.mm_objects.specs.declared.target.Target.{Target};
ghost use Rattle.mm_objects.specs.declared.target.VtableId.{VtableId};

use mm_machines::{Trap, Value};
use mm_objects::{Target, VtableId};
use mm_plain::Op;

/// A value of a run.
pub type RunValue = Value<Target, VtableId>;

/// The number that a value is.
pub fn number(v: &RunValue) -> Result<u64, Trap>
    ensures { result ≡ number_of Target VtableId v.now }
{
    match v {
        Value::Num(n) => Ok(*n),
        _ => Err(Trap::WrongKind),
    }
}

/// The truth value that a value is.
fn truth(v: &RunValue) -> Result<bool, Trap>
    ensures { result ≡ truth_of Target VtableId v.now }
{
    match v {
        Value::Truth(b) => Ok(*b),
        _ => Err(Trap::WrongKind),
    }
}

/// The number by which a switch chooses.
pub fn choice(v: &RunValue) -> Result<u64, Trap>
    ensures { result ≡ choice_of Target VtableId v.now }
{
    match v {
        Value::Num(n) => Ok(*n),
        Value::Truth(true) => Ok(1),
        Value::Truth(false) => Ok(0),
        _ => Err(Trap::WrongKind),
    }
}

/// The other truth value.
pub fn negated(v: &RunValue) -> Result<RunValue, Trap>
    ensures { result ≡ negated_of Target VtableId v.now }
{
    match v {
        Value::Truth(b) => Ok(Value::Truth(!*b)),
        _ => Err(Trap::WrongKind),
    }
}

/// Whether two numbers, or two truth values, are equal.
fn equal(x: &RunValue, y: &RunValue) -> Result<bool, Trap>
    ensures { result ≡ equal_to Target VtableId x.now y.now }
{
    match x {
        Value::Num(a) => {
            let b = number(y)?;
            Ok(*a == b)
        }
        Value::Truth(a) => {
            let b = truth(y)?;
            Ok(*a == b)
        }
        _ => Err(Trap::WrongKind),
    }
}

/// What an operation makes of two values.
pub fn applied(op: Op, x: &RunValue, y: &RunValue) -> Result<RunValue, Trap>
    ensures { result ≡ applied_to Target VtableId op x.now y.now }
{
    if let Op::Eq = op {
        let same = equal(x, y)?;
        return Ok(Value::Truth(same));
    }
    let a = number(x)?;
    let b = number(y)?;
    match op {
        Op::Add => a.checked_add(b).map(Value::Num).ok_or(Trap::Overflow),
        Op::Sub => a.checked_sub(b).map(Value::Num).ok_or(Trap::Overflow),
        Op::Mul => a.checked_mul(b).map(Value::Num).ok_or(Trap::Overflow),
        Op::Div => a.checked_div(b).map(Value::Num).ok_or(Trap::DivZero),
        Op::Rem => a.checked_rem(b).map(Value::Num).ok_or(Trap::DivZero),
        Op::Lt => Ok(Value::Truth(a < b)),
        Op::Eq => Ok(Value::Truth(a == b)),
    }
}
