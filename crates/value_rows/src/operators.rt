// Operators in writing.
use pg_value::{BinOp, UnOp};

pub fn unary_of(word: &str) -> UnOp {
    match word {
        "-" => UnOp::Neg,
        "not" => UnOp::Not,
        _ => UnOp::Empty,
    }
}

pub fn binary_of(word: &str) -> BinOp {
    match word {
        "+" => BinOp::Add,
        "-" => BinOp::Sub,
        "*" => BinOp::Mul,
        "mod" => BinOp::Rem,
        "+=" => BinOp::Join,
        "<" => BinOp::Lt,
        ">" => BinOp::Gt,
        "<=" => BinOp::Le,
        ">=" => BinOp::Ge,
        "==" => BinOp::Eq,
        "and" => BinOp::And,
        "or" => BinOp::Or,
        _ => BinOp::Ne,
    }
}
