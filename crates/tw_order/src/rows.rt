//! The orders of the families of a group.
ghost use Rattle.std.specs.Prelude.{◌≡◌, option_map};
ghost use Rattle.tw_clause.specs.Orders.{order_of};
ghost use Rattle.tw_order.specs.Rows.{row_order};

use tw_clause::Order;
use tw_terms::ConstId;

/// The order of a family, if it is one of the group: that of its first row.
pub fn order_in<'a>(group: &'a [(ConstId, Order)], family: ConstId) -> Option<&'a Order>
    ensures { option_map (λ o. order_of o.now) result ≡ row_order group.now family.0 }
{
    for row in group {
        if row.0.0 == family.0 {
            return Some(&row.1);
        }
    }
    None
}
