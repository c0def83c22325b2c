//! The checker, the search and the explanations for C (`bindings/c/tcpwit.h`).
//!
//! - `checks`: the verdict on a case, in numbers; `strings`: text in memory that C gives. The code of both is in
//!   `c_answers`, and so are the definitions
//! - `texts`: text that C is given and frees
//! - `lab`: judging a trace, searching a witness, explaining and remarking on a case
#![tactic(auto)]

mod checks;
mod lab;
mod strings;
mod texts;

pub use c_answers::Answer;
pub use checks::{tcpwit_check, tcpwit_check_two};
pub use lab::{Judgement, tcpwit_explain, tcpwit_find, tcpwit_judge, tcpwit_remark};
pub use strings::{tcpwit_answer_line, tcpwit_rule_name};
pub use texts::Text;
