//! What a tag file declares: its attributes, its variables, its body and its undeclared attributes;
//! and the faults of the directives that declare it.
#![tactic(auto)]

mod attr_decls;
mod declaration;
mod declared_before;
mod declaring;
mod faults;
mod named;
mod names;

pub use attr_decls::AttrDecls;
pub use declaration::{
    AttrDecl, AttrKind, BodyKind, TagDecl, VarDecl, VarDecls, VarScope, declared,
};
pub use declared_before::DeclaredBefore;
pub use declaring::declare;
pub use faults::{declaring_faults, is_good};
