//! Request chains: which behaviour requested a cown before which.
//!
//! A behaviour is admitted with its cowns and is given a slot. It has one request for each of its cowns, and each
//! cown has the list of its requests, in the order in which they were exchanged (`swap`). A request is settled
//! once it is known to be first, or its predecessor is flagged; it is flagged once its own behaviour is scheduled;
//! it is granted where it is settled and first in its list. A granted request leaves at the front.
//!
//! `Chains` states what each call does to these lists. `ListChains` keeps the lists as they are, and
//! `LinkChains` keeps links between neighbours alone, so that each call takes the same time however long the lists.
#![tactic(auto)]

mod chains;
mod held;
mod kept_links;
mod link_chains;
mod linked;
mod list_chains;
mod request;
mod requests;
mod short_link;
mod table;

pub use chains::Chains;
pub use link_chains::LinkChains;
pub use list_chains::ListChains;
pub use request::{Released, Request, Settled, Slot};
