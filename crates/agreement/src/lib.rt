// Agreement on the counting instances of one message: pick any, average, vote. The instances come in frame order; those of floats are patterns.
#![tactic(auto)]

ghost use Rattle.std.specs.Prelude.{◌≡◌, true, ◌≤◌, ◌^◌, nat_abs, length};
ghost use Rattle.std.specs.List.{count_by, list_all};
ghost use Rattle.whole.specs.Whole.{eq_z};
ghost use Rattle.agreement.specs.Agreement.{message_value, message_values, sum_of, average, vote, agreed};
ghost use Rattle.agreement.specs.Floats.{left_of, float_mean, floats_agreed};
ghost use Rattle.agreement.specs.Kinds.{Decodes};

use arrayvec::ArrayVec;

// A message's agreement. Outside it is a number: on any memory the byte says anything, and each byte has an answer.
#[derive(Clone, Copy)]
enum Agreement {
    PickAny,
    Average,
    Vote,
}

// A number of no agreement.
#[derive(Clone, Copy)]
struct NoAgreement;

impl TryFrom<u8> for Agreement {
    type Error = NoAgreement;

    ghost try_from_gives = { Decodes };

    fn try_from(number: u8) -> Result<Agreement, NoAgreement> {
        match number {
            0 => Ok(Agreement::PickAny),
            1 => Ok(Agreement::Average),
            2 => Ok(Agreement::Vote),
            _ => Err(NoAgreement),
        }
    }
}

// Whether each instance is a value that some message holds: at most 32 bits, signed or not.
#[tactic(auto, unfolding(crate::specs::Agreement::message_value))]
fn all_values(instances: &[i64]) -> bool
    ensures { result ≡ list_all message_value instances.now }
{
    instances.iter().all(|&v| (i64::from(i32::MIN) <= v) & (v <= i64::from(u32::MAX)))
}

// The exact sum of one to eight instances: it needs 36 bits.
fn sum_of(instances: &[i64]) -> i64
    requires { message_values instances.now ≡ true }
    ensures { (result ≡ sum_of instances.now) × (nat_abs result ≤ 2 ^ 35) }
{
    // Not `sum`: it asks that each sum on the way fits, which only the loop's invariant says.
    let mut s: i64 = 0;
    for &v in instances {
        s += v;
    }
    s
}

// The sum divided by the count, the fraction dropped toward zero.
fn mean(instances: &[i64]) -> Option<i64>
    ensures { result ≡ average instances.now }
{
    let n = instances.len();
    if (n < 1) | (8 < n) {
        return None;
    }
    if !all_values(instances) {
        return None;
    }
    Some(sum_of(instances) / (n as i64))
}

// How many instances carry a value.
fn count_of(instances: &[i64], value: i64) -> usize
    ensures { result ≡ count_by (λ v. eq_z v value) instances.now }
{
    instances.iter().filter(|&&v| v == value).count()
}

// The value that is ahead of every other. Each instance's value is counted from there on: all of it where it stands first, and where it stands again
// too few to change anything. The count ends when fewer instances are left than one value has.
fn voted(instances: &[i64]) -> Option<i64>
    ensures { result ≡ vote instances.now }
{
    let n = instances.len();
    let mut most: usize = 0;
    let mut ahead = None;
    for (i, &v) in instances.iter().enumerate() {
        if n - i < most {
            break;
        }
        let c = count_of(&instances[i..], v);
        if most <= c {
            if most == c {
                ahead = None;
            } else {
                most = c;
                ahead = Some(v);
            }
        }
    }
    ahead
}

// What the agreement of that number makes of the instances.
pub fn agree(agreement: u8, instances: &[i64]) -> Option<i64>
    ensures { result ≡ agreed agreement instances.now }
{
    let Ok(agreement) = Agreement::try_from(agreement) else {
        return None;
    };
    match agreement {
        Agreement::PickAny => instances.first().copied(),
        Agreement::Average => mean(instances),
        Agreement::Vote => voted(instances),
    }
}

// ---- floats

// The instances that are not set aside, in their order.
fn left_of(instances: &[i64]) -> ArrayVec<i64, 8>
    requires { length instances.now ≤ 8 }
    ensures { result.items ≡ left_of instances.now }
{
    // Not `collect`: an ArrayVec's asks for an allocator and can fail.
    let mut left = ArrayVec::new();
    for &v in instances {
        if !float::is_aside(packing::pattern_of(v)) {
            left.push(v);
        }
    }
    left
}

// `add` leaves out what is set aside. The paper's form: f32 additions in frame order.
fn float_mean(instances: &[i64]) -> Option<i64>
    requires { length instances.now ≤ 8 }
    ensures { result ≡ float_mean (left_of instances.now) }
{
    let mut s = float::no_sum();
    for &v in instances {
        s = float::add(s, packing::pattern_of(v));
    }
    Some(i64::from(float::divide(s)?))
}

// What the agreement of that number makes of floats. A mean needs no list of those that are left; the other two share one, so that it takes a closing its
// stack once. Two functions and no parameter: docs/PROMISES.md names both, and only what is set aside and the mean differ.
pub fn agree_floats(agreement: u8, instances: &[i64]) -> Option<i64>
    ensures { result ≡ floats_agreed agreement instances.now }
{
    if 8 < instances.len() {
        return None;
    }
    let Ok(kind) = Agreement::try_from(agreement) else {
        return None;
    };
    match kind {
        Agreement::Average => float_mean(instances),
        Agreement::PickAny | Agreement::Vote => agree(agreement, &left_of(instances)),
    }
}
