//! A server on a port. It stands in `chess_sockets`, as nothing can call into `chess_server`, a program. One board from
//! a reader to a writer stands in `server_words`, and `test_server` calls it.
use crate::store::created;
use chess_hub::{Hub, HubFault};
use chess_sockets::{Server, ServerFault, Turned};
use sector_dev::MemoryDevice;

#[test]
fn a_server(rt: HostRuntime) {
    let store = created(&rt, rt.alloc(), 212).ok().expect(&rt, "a store");
    let hub = Hub::new(rt.alloc(), store);
    let bound: Result<Server<MemoryDevice>, ServerFault> = Server::bind(&rt, rt.alloc(), 0, hub);
    let mut server = bound.ok().expect(&rt, "a server");
    let turned: Result<Turned, HubFault> = server.turn(1_000);
    assert!(rt; server.port() > 0 && turned.is_ok());
}
