//! Termination orders over the places of families.
ghost use Rattle.std.specs.Prelude.{◌≡◌, IfOk};
ghost use Rattle.tw_clause.specs.Orders.{order_of};

use std::alloc::{AllocError, Global};

/// What has to get smaller: the argument at a place, counted from 1 with implicit ones; or components, lexicographically or all at once.
#[derive(Drop, Debug)]
pub enum Order {
    Arg(u32),
    Lex(Vec<Order>),
    Simul(Vec<Order>),
}

impl Order {
    /// An equal order. Fails only for want of memory.
    pub fn copy(&self, alloc: Global) -> Result<Order, AllocError>
        ensures { IfOk result (λ o. order_of o ≡ order_of self.now) }
    {
        match self {
            Order::Arg(place) => Ok(Order::Arg(*place)),
            Order::Lex(components) => {
                let mut copies = Vec::with_capacity(alloc, components.len())?;
                for component in components {
                    copies.push(component.copy(alloc)?)?;
                }
                Ok(Order::Lex(copies))
            }
            Order::Simul(components) => {
                let mut copies = Vec::with_capacity(alloc, components.len())?;
                for component in components {
                    copies.push(component.copy(alloc)?)?;
                }
                Ok(Order::Simul(copies))
            }
        }
    }
}
