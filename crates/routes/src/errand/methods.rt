// The errand of an order.
ghost use Rattle.routes.specs.Errands.{Accepts};

use super::Errand;
use crate::family::MOST_SEARCHED;
use calls::order::{BadOrder, Order};
use survey::leg::LAST_STATION;

// An order of another kind, with a station above 15 or with more than 64 lines is bad.
impl TryFrom<Order> for Errand {
    type Error = BadOrder;

    ghost try_from_gives = { Accepts };

    fn try_from(order: Order) -> Result<Errand, BadOrder> {
        if order.kind > 0
            || order.a > LAST_STATION
            || order.b > LAST_STATION
            || order.c > MOST_SEARCHED
        {
            return Err(BadOrder);
        }
        // Kept casts: after these tests nothing is lost, and `u8::try_from` would answer an error that cannot come.
        Ok(Errand {
            from: order.a as u8,
            to: order.b as u8,
            count: order.c as u8,
        })
    }
}
