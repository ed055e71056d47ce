//! Theory, specification and program files: what a text says line by line, and the text that is printed
//! for a theory, a specification or a program. What is printed reads back to an equal one.
#![tactic(auto)]

mod axiom_lines;
mod clause_args;
mod clause_fronts;
mod clause_lines;
mod clause_names;
mod clause_parts;
mod cursor;
mod decl_lines;
mod mono_lines;
mod naming;
mod order_lines;
mod params;
mod print_decls;
mod print_lines;
mod print_parts;
mod program_body;
mod program_head;
mod program_printing;
mod program_text;
mod simple_lines;
mod spec_forms;
mod spec_head;
mod spec_lines;
mod spec_text;
mod theory_text;
mod title;

pub use print_lines::print_theory;
pub use print_parts::print_spec;
pub use program_printing::print_program;
pub use program_text::read_program;
pub use spec_text::read_spec;
pub use theory_text::read_theory;
