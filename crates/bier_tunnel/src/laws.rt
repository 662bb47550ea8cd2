//! Laws of the routes of tunnels. The function does nothing; its contract states the laws.
ghost use Rattle.std.specs.Prelude.{◌≡◌, ◌<◌, ◌↔◌, ℕ, List, Some, None, length};
ghost use Rattle.wire_base.specs.declared.conf.RouterConf.{RouterConf};
ghost use Rattle.wire_base.specs.declared.view.ViewNode.{ViewNode};
ghost use Rattle.wire_base.specs.model.Graph.{IsGraph};
ghost use Rattle.wire_base.specs.model.OnFrame.{next_link};
ghost use Rattle.bier_tunnel.specs.Onward.{IsNoWay, LeadsOver, LeadsToEnds};

/// The routes of tunnels from the node `u` of a topology.
pub fn tunnel_ways()
    // A tunnel comes nearer to its end with each link, and reaches it over fewer links than there are routers.
    ensures onward { (r : RouterConf) (g : List ViewNode) (u x link : ℕ) → IsGraph g → u < length g → next_link r g u x ≡ Some link → LeadsOver r g u x link }
    // The interface is one of the router's.
    ensures within { (r : RouterConf) (g : List ViewNode) (u x link : ℕ) → next_link r g u x ≡ Some link → link < length r.ends }
    // There is none exactly where there is no path to the end of the tunnel, or it is the router itself.
    ensures none { (r : RouterConf) (g : List ViewNode) (u x : ℕ) → IsGraph g → u < length g → LeadsToEnds r g u → ((next_link r g u x ≡ None) ↔ IsNoWay g u x) }
{}
