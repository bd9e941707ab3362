// The message filters, 0 to 13.
#![tactic(auto)]

ghost use Rattle.std.specs.Prelude.{◌≡◌};
ghost use Rattle.packing.specs.Values.{pattern_of};
ghost use Rattle.float.specs.Patterns.{rank_of};
ghost use Rattle.filter.specs.Filter.{masked, below, at_most, bound, passes};
ghost use Rattle.filter.specs.Numbers.{Numbers};

// The filters by the words of the source's table 3-1: what a value is that passes. Outside it is a number: on any memory the byte says anything, and each
// byte has an answer.
#[derive(Clone, Copy)]
enum Filter {
    True,
    False,
    MaskedEqual,
    MaskedNotEqual,
    NotChanged,
    Changed,
    MaskedNotChanged,
    MaskedChanged,
    Within,
    Outside,
    Increased,
    NotIncreased,
    Decreased,
    NotDecreased,
}

// A number that no filter has.
#[derive(Clone, Copy)]
struct UnknownFilter;

impl TryFrom<u8> for Filter {
    type Error = UnknownFilter;

    ghost try_from_gives = { Numbers };

    fn try_from(number: u8) -> Result<Self, UnknownFilter> {
        Ok(match number {
            0 => Filter::True,
            1 => Filter::False,
            2 => Filter::MaskedEqual,
            3 => Filter::MaskedNotEqual,
            4 => Filter::NotChanged,
            5 => Filter::Changed,
            6 => Filter::MaskedNotChanged,
            7 => Filter::MaskedChanged,
            8 => Filter::Within,
            9 => Filter::Outside,
            10 => Filter::Increased,
            11 => Filter::NotIncreased,
            12 => Filter::Decreased,
            13 => Filter::NotDecreased,
            _ => return Err(UnknownFilter),
        })
    }
}

// The sign of a message whose values are below 0 too, and of one whose values are floats. Numbers and no enum: the definitions `below` and `passes`
// take the layout's number, and any other is unsigned.
const SIGNED: u8 = 1;

const FLOAT: u8 = 2;

// A value's 32-bit pattern under a mask.
fn mask(x: u32, value: i64) -> u32
    ensures { result ≡ masked x value }
{
    packing::pattern_of(value) & x
}

// The value of x1 or x2.
fn bound_of(sign: u8, x: u32) -> i64
    ensures { result ≡ bound sign x }
{
    packing::value_of(x, 32, sign == SIGNED)
}

// A float is compared by its rank, since its number would not fit.
fn rank_of(value: i64) -> i64
    ensures { result ≡ rank_of (pattern_of 32 value) }
{
    float::rank_of(packing::pattern_of(value))
}

// The order of values.
fn is_below(sign: u8, u: i64, v: i64) -> bool
    ensures { result ≡ below sign u v }
{
    if sign == FLOAT {
        return rank_of(u) < rank_of(v);
    }
    u < v
}

fn is_at_most(sign: u8, u: i64, v: i64) -> bool
    ensures { result ≡ at_most sign u v }
{
    !is_below(sign, v, u)
}

// Whether a message's filter passes a new value, where old is the one that the message holds.
pub fn passes(filter: u8, sign: u8, x1: u32, x2: u32, new: i64, old: i64) -> bool
    ensures { result ≡ passes filter sign x1 x2 new old }
{
    let Ok(filter) = Filter::try_from(filter) else {
        return false;
    };
    match filter {
        Filter::True => true,
        Filter::False => false,
        Filter::MaskedEqual => mask(x1, new) == x2,
        Filter::MaskedNotEqual => mask(x1, new) != x2,
        Filter::NotChanged => new == old,
        Filter::Changed => new != old,
        Filter::MaskedNotChanged => mask(x1, new) == mask(x1, old),
        Filter::MaskedChanged => mask(x1, new) != mask(x1, old),
        Filter::Within => is_at_most(sign, bound_of(sign, x1), new)
            & is_at_most(sign, new, bound_of(sign, x2)),
        Filter::Outside => is_below(sign, new, bound_of(sign, x1))
            | is_below(sign, bound_of(sign, x2), new),
        Filter::Increased => is_below(sign, old, new),
        Filter::NotIncreased => is_at_most(sign, new, old),
        Filter::Decreased => is_below(sign, new, old),
        Filter::NotDecreased => is_at_most(sign, old, new),
    }
}
