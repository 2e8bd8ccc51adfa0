// What is kept beside the ends: the last frames that they wrote, and what a line gives. Each buffer has room for any line, so that no line allocates.
use crate::whole::LINE_LIMIT;
use arrayvec::ArrayVec;
use judging::End;
use link::FRAME_LIMIT;
use outcome::BatchOrder;
use std::alloc::{AllocError, Global};
use std::collections::VecDeque;

const KEPT: usize = 4096;

// The last frames that an end wrote, and how many it wrote in all.
#[derive(Drop)]
pub(crate) struct Frames {
    last: VecDeque<ArrayVec<u8, FRAME_LIMIT>>,
    count: usize,
}

impl Frames {
    fn new(alloc: Global) -> Result<Frames, AllocError> {
        Ok(Frames {
            last: VecDeque::with_capacity(alloc, KEPT)?,
            count: 0,
        })
    }

    // Keeps the frame that the end wrote, if it wrote one.
    pub(crate) fn keep(&mut self, frame: &[u8]) -> Result<(), AllocError> {
        if frame.is_empty() {
            return Ok(());
        }
        // never too long: no frame is longer than the limit
        let Ok(frame) = ArrayVec::try_from(frame) else {
            return Ok(());
        };
        if self.last.len() >= KEPT {
            self.last.pop_front();
        }
        self.last.push_back(frame)?;
        self.count = self.count.wrapping_add(1);
        Ok(())
    }

    // Frame i of those written, counted from 1, where it is kept.
    pub(crate) fn get(&self, i: usize) -> Option<&[u8]> {
        let later = self.count.checked_sub(i)?;
        let place = self.last.len().checked_sub(later)?.checked_sub(1)?;
        Some(self.last.get(place)?.as_slice())
    }

    fn clear(&mut self) {
        self.last.clear();
        self.count = 0;
    }
}

// The box's, and those of all offices.
#[derive(Drop)]
pub(crate) struct Written {
    cab: Frames,
    offices: Frames,
}

impl Written {
    pub(crate) fn new(alloc: Global) -> Result<Written, AllocError> {
        Ok(Written {
            cab: Frames::new(alloc)?,
            offices: Frames::new(alloc)?,
        })
    }

    pub(crate) fn by(&self, end: End) -> &Frames {
        match end {
            End::Box => &self.cab,
            End::Office => &self.offices,
        }
    }

    pub(crate) fn by_mut(&mut self, end: End) -> &mut Frames {
        match end {
            End::Box => &mut self.cab,
            End::Office => &mut self.offices,
        }
    }

    pub(crate) fn clear(&mut self) {
        self.cab.clear();
        self.offices.clear();
    }
}

// As many orders and lengths as a line may give: an order takes ten characters at least, a length two.
const ORDER_LIMIT: usize = LINE_LIMIT / 8;

const LENGTH_LIMIT: usize = LINE_LIMIT / 2;

#[derive(Drop)]
pub(crate) struct Memory {
    // The bytes that a line gives, or the frame that it carries.
    pub given: Vec<u8>,
    // The orders of a batch, whose data are given.
    pub orders: Vec<BatchOrder>,
    // The lengths of a run's frames, which are given.
    pub lengths: Vec<usize>,
    pub written: Written,
}

impl Memory {
    pub(crate) fn new(alloc: Global) -> Result<Memory, AllocError> {
        Ok(Memory {
            given: Vec::with_capacity(alloc, LINE_LIMIT)?,
            orders: Vec::with_capacity(alloc, ORDER_LIMIT)?,
            lengths: Vec::with_capacity(alloc, LENGTH_LIMIT)?,
            written: Written::new(alloc)?,
        })
    }
}
