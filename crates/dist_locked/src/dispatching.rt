//! The orders of a run.

ghost use Rattle.std.specs.Prelude.{◌≡◌, ◌+◌, ◌≤◌, ◌∷◌, ◌++◌, [], length};
ghost use Rattle.dist_locked.specs.Orders.{orders_of};

use crate::queue::{Orders, PutPass};
use crate::rule::DialOrder;
use std::sync::Wait;

/// The most dial orders of a run: a nodes file has no more.
pub const MOST_ORDERS: u32 = 64;

/// How many orders the queue has room for: all dial orders, and the last one of each worker.
pub const CAPACITY: usize = 66;

/// The order that ends a worker.
pub const LAST_ORDER: DialOrder = DialOrder(u32::MAX);

// Puts one order. There is room for it.
fn put_one<R: Wait>(rt: &R, orders: &Orders, pass: &mut PutPass, order: DialOrder)
    requires own { pass.old.table ≡ orders.now.table }
    requires room { length pass.old.put + 1 ≤ orders.now.capacity }
    ensures own { pass.new.table ≡ pass.old.table }
    ensures put { pass.new.put ≡ pass.old.put ++ order ∷ [] }
    ensures longer { length pass.new.put ≡ length pass.old.put + 1 }
{
    let _ = orders.put(rt, pass, order);
}

/// Puts the orders below a number, and a last one for each worker. All of them are put before a worker starts, since the
/// system may run the workers one after another in this very thread, where it has no thread for them.
pub fn dispatch<R: Wait>(rt: &R, orders: &Orders, pass: PutPass, count: u32) -> PutPass
    requires own { pass.table ≡ orders.now.table }
    requires new { pass.put ≡ [] }
    requires room { count + 2 ≤ orders.now.capacity }
    ensures own { result.table ≡ pass.table }
    ensures put { result.put ≡ orders_of count }
{
    let mut pass = pass;
    for number in 0..count {
        put_one(rt, orders, &mut pass, DialOrder(number));
    }
    put_one(rt, orders, &mut pass, LAST_ORDER);
    put_one(rt, orders, &mut pass, LAST_ORDER);
    pass
}
