// Tests that readers allocate no memory: `tests/test_memory.py` runs the tests of this module once
// more and refuses the first request for memory of each.
mod each_reader;
