//! Predicates and expressions of SQL over one row: SQL's three-valued logic, arithmetic that answers
//! an overflow, and a form of a predicate without NOT that is as true on every row.
//!
//! An expression that fits a kind has a value of the kind, NULL or an overflow on every row of the columns.
#![tactic(auto)]

mod arithmetic;
mod evaluation;
mod expr;
mod expression;
mod laws;
mod normal_form;
mod positions;
mod pred;
mod truth;

pub use evaluation::eval;
pub use expr::{Expr, ExprFault};
pub use expression::eval_expr;
pub use laws::an_expression_has_the_kind_that_it_fits;
pub use normal_form::normal;
pub use plain_types::{Boxed, List};
pub use pred::{Op, Operand, Pred};
pub use row_values::{Row, Value};
pub use truth::Truth;
