// The task for C: what a card file asks.
ghost use Rattle.std.specs.Prelude.{◌≡◌, length};
ghost use Rattle.card.specs.Content.{content_p};
ghost use Rattle.desk.specs.Asked.{asked_by};

// Now and budget, where the host stands in the file and how long it is, and how many roots and certificates there are. The number is 0;
// where the file can't be read it is the fault's, and all else is 0.
#[repr(C)]
#[derive(Clone, Copy, Default)]
pub struct Asked {
    pub now: u64,
    pub budget: u64,
    pub host_at: u64,
    pub host_length: u64,
    pub number: u8,
    pub roots: u8,
    pub certificates: u8,
}

// Reads the file, and searches nothing.
#[unsafe(no_mangle)]
pub extern "C" fn savuneco_task(file: &[u8]) -> Asked
    ensures { result ≡ asked_by (length file.now) (content_p file.now) }
{
    match card::read(file) {
        Ok(card) => {
            let host = card.task.host.name;
            Asked {
                now: card.task.now,
                budget: card.task.budget,
                host_at: host.start as u64,
                host_length: (host.end - host.start) as u64,
                number: 0,
                roots: card.roots.count,
                certificates: card.bundle.count,
            }
        }
        Err(fault) => Asked {
            number: fault.into(),
            ..Asked::default()
        },
    }
}
