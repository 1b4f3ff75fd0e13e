// With memory enough, a lock and a table scanner are made.
use lock::Lock;
use scanners::Flatbed;
use table_scanner::TableScanner;

#[test]
fn a_lock_is_made(rt: HostRuntime) {
    let lock = Lock::new(rt.alloc(), Flatbed::new());
    assert!(rt; lock.is_ok());
}

#[test]
fn a_table_scanner_is_made(rt: HostRuntime) {
    let scanner = TableScanner::new(rt.alloc());
    assert!(rt; scanner.is_ok());
}
