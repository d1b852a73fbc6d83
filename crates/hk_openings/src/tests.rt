//! Tests over the heaps that the program opens.
mod held;
