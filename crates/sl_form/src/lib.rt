// The keys of a document's tables, and the forms that the values at them may have.
#![tactic(auto)]

mod fields;
mod forms;
mod path;
mod refusal;
mod text;

pub use fields::{
    find, given_number, only, optional_number, required_number, required_text, text_at,
};
pub use forms::{Form, PortText, pass_of, required};
pub use path::{Key, Path, TableName};
pub use refusal::{ReadError, Refusal};
pub use text::Text;
