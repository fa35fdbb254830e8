mod arithmetic;
mod decoding;
mod stepping;
