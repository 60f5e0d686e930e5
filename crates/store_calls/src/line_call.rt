//! Calls on the store's tree are made of those that lines name.

use crate::store_op::StoreOp;
use command_lines::StoreCall;
use session_driver::LineCall;

impl LineCall for StoreOp {
    ghost made = { λ call. call };

    fn of_line(call: StoreCall) -> StoreOp {
        StoreOp::new(call)
    }
}
