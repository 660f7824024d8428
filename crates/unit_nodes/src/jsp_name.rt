/// A standard action.
#[derive(Clone, Copy, Debug, PartialEq, Eq)]
pub enum JspName {
    Include,
    Forward,
    Param,
    UseBean,
    GetProperty,
    SetProperty,
    Attribute,
    Body,
    Text,
    DoBody,
    Invoke,
}
