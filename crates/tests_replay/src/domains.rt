//! Small domains.
// Two routers and a link.
pub const PAIR: &str =
    "subdomain=[{sd=0,kind='mpls'}]\nrouter=[{name='A',system='0000.0000.0001',prefix='10.0.0.1'},{name='B',system='0000.0000.0002',prefix='10.0.0.2'}]\nbier=[{router='A',sd=0,id=1},{router='B',sd=0,id=2}]\nlabels=[{router='A',sd=0,bsl=64,max_si=0,label=100},{router='B',sd=0,bsl=64,max_si=0,label=200}]\nlink=[{a='A',b='B',metric_ab=10,metric_ba=10}]";

// Four in a ring.
pub const RING: &str =
    "subdomain=[{sd=0,kind='mpls'}]\nrouter=[{name='A',system='0000.0000.0001',prefix='10.0.0.1'},{name='B',system='0000.0000.0002',prefix='10.0.0.2'},{name='C',system='0000.0000.0003',prefix='10.0.0.3'},{name='D',system='0000.0000.0004',prefix='10.0.0.4'}]\nbier=[{router='A',sd=0,id=1},{router='B',sd=0,id=2},{router='C',sd=0,id=3},{router='D',sd=0,id=4}]\nlabels=[{router='A',sd=0,bsl=64,max_si=0,label=100},{router='B',sd=0,bsl=64,max_si=0,label=200},{router='C',sd=0,bsl=64,max_si=0,label=300},{router='D',sd=0,bsl=64,max_si=0,label=400}]\nlink=[{a='A',b='B',metric_ab=10,metric_ba=10},{a='B',b='C',metric_ab=10,metric_ba=10},{a='C',b='D',metric_ab=10,metric_ba=10},{a='D',b='A',metric_ab=10,metric_ba=10}]";

// The same with the BFR-id 3 at two routers.
const TWIN: &str =
    "subdomain=[{sd=0,kind='mpls'}]\nrouter=[{name='A',system='0000.0000.0001',prefix='10.0.0.1'},{name='B',system='0000.0000.0002',prefix='10.0.0.2'},{name='C',system='0000.0000.0003',prefix='10.0.0.3'},{name='D',system='0000.0000.0004',prefix='10.0.0.4'}]\nbier=[{router='A',sd=0,id=1},{router='B',sd=0,id=2},{router='C',sd=0,id=3},{router='D',sd=0,id=3}]\nlabels=[{router='A',sd=0,bsl=64,max_si=0,label=100},{router='B',sd=0,bsl=64,max_si=0,label=200},{router='C',sd=0,bsl=64,max_si=0,label=300},{router='D',sd=0,bsl=64,max_si=0,label=400}]\nlink=[{a='A',b='B',metric_ab=10,metric_ba=10},{a='B',b='C',metric_ab=10,metric_ba=10},{a='C',b='D',metric_ab=10,metric_ba=10},{a='D',b='A',metric_ab=10,metric_ba=10}]";

// A reaches C and D through P, which has no BFR-id.
const FORK: &str =
    "subdomain=[{sd=0,kind='mpls'}]\nrouter=[{name='A',system='0000.0000.0001',prefix='10.0.0.1'},{name='P',system='0000.0000.0002',prefix='10.0.0.2'},{name='C',system='0000.0000.0003',prefix='10.0.0.3'},{name='D',system='0000.0000.0004',prefix='10.0.0.4'}]\nbier=[{router='A',sd=0,id=1},{router='C',sd=0,id=3},{router='D',sd=0,id=4}]\nlabels=[{router='A',sd=0,bsl=64,max_si=0,label=100},{router='C',sd=0,bsl=64,max_si=0,label=300},{router='D',sd=0,bsl=64,max_si=0,label=400}]\nlink=[{a='A',b='P',metric_ab=10,metric_ba=10},{a='P',b='C',metric_ab=10,metric_ba=10},{a='P',b='D',metric_ab=10,metric_ba=10}]";

// Three in a line; the second has its overload bit set.
const LINE: &str =
    "subdomain=[{sd=0,kind='mpls'}]\nrouter=[{name='A',system='0000.0000.0001',prefix='10.0.0.1'},{name='B',system='0000.0000.0002',prefix='10.0.0.2',overload=true},{name='C',system='0000.0000.0003',prefix='10.0.0.3'}]\nbier=[{router='A',sd=0,id=1},{router='B',sd=0,id=2},{router='C',sd=0,id=3}]\nlabels=[{router='A',sd=0,bsl=64,max_si=0,label=100},{router='B',sd=0,bsl=64,max_si=0,label=200},{router='C',sd=0,bsl=64,max_si=0,label=300}]\nlink=[{a='A',b='B',metric_ab=10,metric_ba=10},{a='B',b='C',metric_ab=10,metric_ba=10}]";

// Two routers with the same system ID.
const SAME: &str =
    "subdomain=[{sd=0,kind='mpls'}]\nrouter=[{name='A',system='0000.0000.0001',prefix='10.0.0.1'},{name='B',system='0000.0000.0001',prefix='10.0.0.2'}]\nbier=[{router='A',sd=0,id=1},{router='B',sd=0,id=2}]\nlabels=[{router='A',sd=0,bsl=64,max_si=0,label=100},{router='B',sd=0,bsl=64,max_si=0,label=200}]\nlink=[{a='A',b='B',metric_ab=10,metric_ba=10}]";

// Two routers; the second has the first BFR-id of the second set of 64.
const SETS: &str =
    "subdomain=[{sd=0,kind='mpls'}]\nrouter=[{name='A',system='0000.0000.0001',prefix='10.0.0.1'},{name='B',system='0000.0000.0002',prefix='10.0.0.2'}]\nbier=[{router='A',sd=0,id=1},{router='B',sd=0,id=65}]\nlabels=[{router='A',sd=0,bsl=64,max_si=1,label=100},{router='B',sd=0,bsl=64,max_si=1,label=200}]\nlink=[{a='A',b='B',metric_ab=10,metric_ba=10}]";

/// Returns the domain file with that name in the tables.
pub fn domain_of(name: &str) -> &'static str {
    match name {
        "pair" => PAIR,
        "ring" => RING,
        "twin" => TWIN,
        "fork" => FORK,
        "line" => LINE,
        "same" => SAME,
        "sets" => SETS,
        _ => "[[",
    }
}
