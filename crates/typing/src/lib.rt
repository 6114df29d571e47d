//! The rules of the strict validator: types, the values of a type, the typing relation with its errors, and the theorem
//! that typing is sound. The crate also defines paths in expressions, by the indexes of operands, and the expression
//! that a typing error blames. The only functions that compute are those that give the code of an error, and find an
//! operand by its index, or an expression by a path.
#![tactic(auto)]

mod fault;
mod laws;
mod operands;
mod path_laws;

pub use fault::TypeFault;
pub use laws::{
    capabilities_are_a_set, expressions_have_one_judgement, parents_determine_ancestors,
    something_conforms, typed_expressions_are_sound, types_are_ordered,
};
pub use operands::{at_path, operand};
pub use path_laws::{blames_are_placed, faults_blame_one_place};
