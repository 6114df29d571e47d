//! A site of Weirbowl for programs in C, and in languages that call C.
//!
//! C keeps a slot for a site, zeroed before its first use, and passes the slot to each call that uses the site. C also
//! provides the memory for the body of a reply. The contract of each export says what is returned and what is written;
//! of an export with a slot, also what is in the slot before and after.
#![tactic(auto)]

mod call_result;
mod copying;
mod embedded;
mod opening;
mod pointer;
mod raw_box;
mod site_exports;
mod slot;
mod slot_calls;
mod text_calls;

pub use call_result::CallResult;
pub use embedded::EmbeddedSite;
pub use opening::OpenError;
pub use pointer::SitePointer;
pub use site_exports::{
    weirbowl_authorize, weirbowl_close, weirbowl_delete_entity, weirbowl_delete_policy,
    weirbowl_delta, weirbowl_get_policy, weirbowl_last_body, weirbowl_merge, weirbowl_open,
    weirbowl_put_entity, weirbowl_put_policy, weirbowl_state, weirbowl_summary,
};
pub use slot::SiteSlot;
pub use text_calls::{weirbowl_check, weirbowl_decide, weirbowl_decide_under, weirbowl_explain};
