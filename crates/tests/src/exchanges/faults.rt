//! What is said of an exchange that is refused.

use filer_client::ExchangeFault;
use http_wire::ReplyFault;
use outbox_core::TakeFault;
use std::test::Fail;

const FAULTS: [(ExchangeFault, &str); 3] = [
    (
        ExchangeFault::Write { sent: 3 },
        "the writer failed after 3 bytes",
    ),
    (ExchangeFault::Reply(ReplyFault::Cut), "the reply is cut"),
    (
        ExchangeFault::Take(TakeFault::NoEntry),
        "no entry has this id",
    ),
];

#[test]
fn texts_of_faults(rt: HostRuntime) -> Result<(), Fail> {
    for (fault, text) in FAULTS {
        assert_eq!(rt; format!(in rt.alloc(); "{fault}")?.as_str(), text);
    }
    Ok(())
}
