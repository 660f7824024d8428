ghost use Rattle.std.specs.Prelude.{◌≡◌};
ghost use Rattle.page_code.specs.Ops.{takes, leaves, mode_takes, address_with};

use crate::op::Op;
use crate::operands::PropertyMode;

impl Op {
    /// How many values the operation takes.
    pub fn takes(&self) -> u128
        ensures { result ≡ takes self.now }
    {
        match self {
            Op::Write(_) | Op::Visit(_) | Op::Const(_) | Op::Find(_) | Op::Implicit(_) => 0,
            Op::RemoveVar(_) | Op::RemoveAll(_) => 0,
            Op::Put | Op::PutEscaped | Op::Pop | Op::SetVar(_) | Op::GetProperty(_) => 1,
            Op::HeaderIndex(_) | Op::ScopeIndex(_) | Op::Unary(_) | Op::Coerce(_) => 1,
            Op::Index | Op::Binary(_) => 2,
            Op::MakeList(count) | Op::Concat(count) => *count as u128,
            Op::MakeMap(pairs) => 2 * (*pairs as u128),
            Op::Call(function) => function.arity() as u128,
            Op::Url(params) => values_of_address(*params),
            Op::SetProperty(_, mode) => mode.get().takes(),
        }
    }

    /// How many values the operation leaves: one or none.
    pub fn leaves(&self) -> usize
        ensures { result ≡ leaves self.now }
    {
        match self {
            Op::Write(_) | Op::Put | Op::PutEscaped | Op::Visit(_) | Op::Pop => 0,
            Op::SetVar(_) | Op::RemoveVar(_) | Op::RemoveAll(_) | Op::SetProperty(..) => 0,
            Op::Const(_) | Op::Find(_) | Op::Implicit(_) | Op::Coerce(_) => 1,
            Op::Index | Op::HeaderIndex(_) | Op::ScopeIndex(_) | Op::GetProperty(_) => 1,
            Op::Unary(_) | Op::Binary(_) | Op::Call(_) | Op::Url(_) => 1,
            Op::MakeList(_) | Op::MakeMap(_) | Op::Concat(_) => 1,
        }
    }
}

impl PropertyMode {
    // How many values a change of properties takes.
    fn takes(&self) -> u128
        ensures { result ≡ mode_takes self.now }
    {
        match self {
            PropertyMode::Parameters | PropertyMode::Parameter { .. } => 0,
            PropertyMode::Value { .. } => 1,
            PropertyMode::Entry => 2,
        }
    }
}

/// How many values an address with so many parameters is.
pub fn values_of_address(params: usize) -> u128
    ensures { result ≡ address_with params }
{
    2 * (params as u128) + 1
}
