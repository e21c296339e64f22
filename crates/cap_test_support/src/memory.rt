//! Memory of which one request is refused.
use std::alloc::{AllocError, Allocator};
use std::sync::atomic::{AtomicBool, AtomicU64, Ordering};

// Which requests there were, and which one is refused.
#[derive(Drop)]
struct Requests {
    made: AtomicU64,
    refused: AtomicU64,
    met: AtomicBool,
}

/// Memory that counts the requests for it, and refuses one of them.
#[derive(Drop)]
pub struct Memory<B: Allocator> {
    inner: B,
    requests: Requests,
}

impl<B: Allocator> Memory<B> {
    /// Ample memory: no request is refused.
    pub fn new(inner: B) -> Memory<B> {
        Memory {
            inner,
            requests: Requests {
                made: AtomicU64::new(0),
                refused: AtomicU64::new(0),
                met: AtomicBool::new(false),
            },
        }
    }

    /// Refuses the request of this number, counted from 1 and from now on; 0 refuses none.
    pub fn refuse(&self, number: u64) {
        self.requests.refuse(number);
    }

    /// How many requests there were since the last `refuse`.
    pub fn requests(&self) -> u64 {
        self.requests.made.load(Ordering::SeqCst)
    }

    /// Whether the request that `refuse` named last was made, and so was refused.
    pub fn has_refused(&self) -> bool {
        self.requests.met.load(Ordering::SeqCst)
    }
}

impl Requests {
    fn refuse(&self, number: u64) {
        self.made.store(0, Ordering::SeqCst);
        self.refused.store(number, Ordering::SeqCst);
        if number > 0 {
            self.met.store(false, Ordering::SeqCst);
        }
    }
}

// Counts a request, and answers whether it is granted.
fn grant(requests: &Requests) -> bool {
    let before = requests.made.fetch_add(1, Ordering::SeqCst);
    let refused = before.wrapping_add(1) == requests.refused.load(Ordering::SeqCst);
    if refused {
        requests.met.store(true, Ordering::SeqCst);
    }
    !refused
}

unsafe impl<B: Allocator> Allocator for Memory<B> {
    ghost dealloc_token = { λ memory ty ptr. B.dealloc_token memory.inner ty ptr };

    fn allocate(&self, size: usize, align: usize) -> Result<*mut u8, AllocError> {
        if grant(&self.requests) {
            self.inner.allocate(size, align)
        } else {
            Err(AllocError)
        }
    }

    unsafe fn deallocate(&self, ptr: *mut u8, size: usize, align: usize) {
        self.inner.deallocate(ptr, size, align);
    }
}
