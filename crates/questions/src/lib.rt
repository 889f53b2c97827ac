// Questions about the type of a root: `vars` asks for variables, `lambdas` for params that are the same variable, `named` for what
// a name stands for. Memory is only read.
#![tactic(auto)]

pub mod lambdas;
pub mod named;
pub mod vars;
