// Three kinds of number, each a type of its own, so that none is passed in another's place.
#![tactic(auto)]

ghost use Rattle.std.specs.Prelude.{◌≡◌, neg_ℤ, FitsSigned};
ghost use Rattle.std.specs.Int.{w32};
ghost use Rattle.kinds.specs.Order.{order_of};

// By which distances are compared: the low 31 bits of the float, negated if the sign bit is set.
#[derive(Clone, Copy, Debug, PartialEq, Eq, PartialOrd, Ord)]
pub struct Order(pub i32);

// A vector's place in the tables.
#[derive(Clone, Copy, Debug, PartialEq, Eq, Hash)]
pub struct Id(pub u16);

// A layer of the graph: 0 is the one that holds every id.
#[derive(Clone, Copy, Debug, PartialEq, Eq, PartialOrd, Ord, Hash)]
pub struct Level(pub u8);

// Total: a NaN, which no distance is, counts as 0.
impl From<f32> for Order {
    ghost from_gives = { λ x order. order ≡ record { 0 = order_of x } };

    #[tactic(auto, unfolding(crate::specs::Order::order_of))]
    fn from(x: f32) -> Order {
        if x.is_nan() {
            return Order(0);
        }
        let bits = x.to_bits();
        let low = bits % 0x8000_0000;
        let magnitude = low as i32;
        if bits < 0x8000_0000 {
            Order(magnitude)
        } else {
            Order(-magnitude)
        }
    }
}

impl Order {
    // The candidate heap's order, nearest on top. Of the 32-bit numbers only the least has no negation, and no float has it.
    pub fn negated(self) -> Order
        requires { FitsSigned w32 (neg_ℤ self.0) }
        ensures { result ≡ record { 0 = neg_ℤ self.0 } }
    {
        Order(-self.0)
    }
}
