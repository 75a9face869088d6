//! Tables of allowed transitions, and tables that change at stated times: values from outside, growths that are refused, and
//! calls that take no memory.
mod files;
mod names;
mod quiet;
mod refused;
