//! What the other systems advertise, for proofs only: an update is checked against it, and the program stores none of it.
ghost use Rattle.std.specs.Prelude.{◌≡◌, List};
ghost use Rattle.std.specs.Borrow.{ftrue};
ghost use Rattle.wire_base.specs.model.View.{Claim};
ghost use Rattle.view_graph.specs.Keep.{heard};

use lsp_store::Store;
use std::marker::Model;
use wire_base::RouterConf;

/// It occupies no memory.
#[derive(Drop)]
pub struct Others {
    pub ghost claims: { List Claim },
}

impl Model for Others {
    ghost also_owns = { λ _. ftrue };
}

impl Others {
    /// What they advertise in an LSDB.
    pub(crate) fn heard(_conf: &RouterConf, _store: &Store) -> Others
        ensures { result.claims ≡ heard _conf.now.system _conf.now.kinds _store.now.entries }
    {
        Others {}
    }
}
